ghost use Rattle.std.specs.Prelude.{◌≡◌, true, IfOk};
ghost use Rattle.cv_command_arguments.specs.Simple.{texts_of};
ghost use Rattle.cv_command_arguments.specs.Versions.{comparison_by};
ghost use Rattle.cv_base.specs.declared.«package».PackageKind.TheVariants as kind;
ghost use Rattle.cv_match.specs.Order.{version_in};
ghost use Rattle.cv_seq.specs.Cause.{Rose};
ghost use Rattle.cv_command.specs.Order.{compared_as, compared_printed, compared_status, compared_text, comparison_printed, kind_of, order_of};
ghost use Rattle.cv_command.specs.Printed.{IsPrinted, is_end};

use crate::printing::print;
use crate::status::Status;
use crate::usage::print_usage;
use cv_base::{NoMemory, PackageKind, Text};
use cv_command_arguments::{Packages, Versions, versions_of};
use cv_io::Sink;
use cv_match::SemanticVersion;
use cv_match_range::{ApkRule, DebRule, PypiRule, VersionRule};
use std::alloc::Global;
use std::cmp::Ordering;

/// How two texts compare as versions.
#[derive(Clone, Copy, Debug, PartialEq, Eq)]
pub enum Compared {
    Ordered(Ordering),
    /// The first one is not a valid version.
    NotFirst,
    /// The first one is a valid version, and the second is not.
    NotSecond,
}

/// Prints how two versions compare. The arguments are `deb`, `apk`, `semver` or `pypi`, and the two; all other arguments print
/// the usage line.
#[tactic(auto, unfolding(crate::specs::Order::order_of))]
pub fn order_command<K: Sink>(alloc: Global, arguments: &[String], output: &mut K) -> Status
    ensures printed { IsPrinted (order_of (texts_of arguments.now)) (K.contents output.old) (K.contents output.new) result }
    ensures write_fault { result ≡ Status.WriteFault → Rose (K.faults output.old) (K.faults output.new) }
{
    match versions_of(alloc, arguments) {
        Ok(Some(versions)) => print_order(alloc, versions, output),
        Ok(None) => print_usage(output),
        Err(NoMemory) => Status::NoMemory,
    }
}

/// Prints how two texts compare as versions of packages.
fn print_order<K: Sink>(alloc: Global, versions: Versions, output: &mut K) -> Status
    ensures printed { IsPrinted (comparison_printed (comparison_by versions.entry)) (K.contents output.old) (K.contents output.new) result }
    ensures write_fault { result ≡ Status.WriteFault → Rose (K.faults output.old) (K.faults output.new) }
{
    let kind = kind_of(versions.packages);
    match compare_as(alloc, kind, versions.first, versions.second) {
        Ok(compared) => print_compared(output, compared),
        Err(NoMemory) => Status::NoMemory,
    }
}

/// The kind of these packages.
fn kind_of(packages: Packages) -> PackageKind
    ensures { result ≡ kind_of packages }
{
    match packages {
        Packages::Deb => PackageKind::Deb,
        Packages::Apk => PackageKind::Apk,
        Packages::Semver => PackageKind::Npm,
        Packages::Pypi => PackageKind::Pypi,
    }
}

fn compare_as(
    alloc: Global,
    kind: PackageKind,
    first: &str,
    second: &str,
) -> Result<Compared, NoMemory>
    ensures { IfOk result (λ compared. compared ≡ compared_as kind first.now second.now) }
{
    match kind {
        PackageKind::Deb => Ok(compare_by::<DebRule>(first.as_bytes(), second.as_bytes())),
        PackageKind::Apk => Ok(compare_by::<ApkRule>(first.as_bytes(), second.as_bytes())),
        PackageKind::Npm => compare_semantic(alloc, first, second),
        PackageKind::Pypi => Ok(compare_by::<PypiRule>(first.as_bytes(), second.as_bytes())),
    }
}

/// How two texts compare by the rule of one kind of package.
fn compare_by<R: VersionRule>(first: &[u8], second: &[u8]) -> Compared
    ensures { result ≡ compared_as R.kind first.now second.now }
{
    if !R::is_version(first) {
        return Compared::NotFirst;
    }
    if !R::is_version(second) {
        return Compared::NotSecond;
    }
    Compared::Ordered(R::compare(first, second))
}

#[tactic(auto, using(crate::proofs::Versions::both_read))]
fn compare_semantic(alloc: Global, first: &str, second: &str) -> Result<Compared, NoMemory>
    ensures { IfOk result (λ compared. compared ≡ compared_as kind.Npm first.now second.now) }
{
    let Some(one) = read_semantic(alloc, first)? else {
        return Ok(Compared::NotFirst);
    };
    let Some(other) = read_semantic(alloc, second)? else {
        return Ok(Compared::NotSecond);
    };
    Ok(Compared::Ordered(one.compare(&other)))
}

fn read_semantic(alloc: Global, text: &str) -> Result<Option<SemanticVersion>, NoMemory>
    ensures { IfOk result (λ found. found ≡ version_in kind.Npm text.now) }
{
    let text = Text::of(alloc, text)?;
    SemanticVersion::read(alloc, &text)
}

fn print_compared<K: Sink>(output: &mut K, compared: Compared) -> Status
    ensures printed { IsPrinted (compared_printed compared) (K.contents output.old) (K.contents output.new) result }
    ensures write_fault { result ≡ Status.WriteFault → Rose (K.faults output.old) (K.faults output.new) }
{
    print(output, compared_text(compared), compared_status(compared))
}

/// How the command ends once the line was printed.
fn compared_status(compared: Compared) -> Status
    ensures value { result ≡ compared_status compared }
    ensures end { is_end result ≡ true }
{
    match compared {
        Compared::Ordered(_) => Status::Done,
        Compared::NotFirst | Compared::NotSecond => Status::Refused,
    }
}

fn compared_text(compared: Compared) -> &'static str
    ensures { result.now ≡ compared_text compared }
{
    match compared {
        Compared::Ordered(Ordering::Less) => "<\n",
        Compared::Ordered(Ordering::Equal) => "=\n",
        Compared::Ordered(Ordering::Greater) => ">\n",
        Compared::NotFirst => "not a version: first\n",
        Compared::NotSecond => "not a version: second\n",
    }
}
