ghost use Rattle.std.specs.Prelude.{◌≡◌, [], ◌+◌, ◌<◌, ◌≤◌, ◌^◌, drop, length, take, All};
ghost use Rattle.std.specs.List.{AllByRecursion};
ghost use Rattle.cv_seq.specs.Cause.{Rose};
ghost use Rattle.cv_core.specs.Core.{opened};
ghost use Rattle.cv_core_machine.specs.declared.limits.TheConstants.{MAX_FEEDS, MAX_IMAGES};
ghost use Rattle.cv_serve_pushed.specs.Pushed.{PushEnds, ReadsInput};
ghost use Rattle.cv_serve_pushed.specs.code.Ended.{ended_by};

use crate::rounds::PushRounds;
use cv_base::NoMemory;
use cv_desk::Desk;
use cv_hook::Hook;
use cv_io::{Sink, Source};
use cv_request::MAX_LANES;
use cv_serve::{ServeEnd, serve_from};
use cv_serve_legal::completeness_laws;
use cv_serve_round::{Blank, Core, Identity, new_core, started};
use std::alloc::Global;
use std::marker::Brand;
use std::sync::Wait;
use std::thread::Threads;

/// Serves the requests of the input to its end, in rounds, and after the lines of each round makes the attempts of the hook and writes
/// their lines. The workers index layers: the first one with the first desk, and so on. The other desks are not used. It waits for its
/// threads.
pub fn serve_pushed<
    S: Source,
    K: Sink,
    H: Hook,
    D: Desk + Drop + Send + Sync,
    W: Threads + Wait + Sync,
>(
    rt: &W,
    alloc: Global,
    input: &mut S,
    output: &mut K,
    hook: &mut H,
    desks: &mut Vec<D>,
    workers: u32,
) -> ServeEnd
    requires at_least_one_worker { 1 ≤ workers }
    requires at_most_one_for_each_desk { workers ≤ length desks.old.items }
    requires at_most_8_desks { length desks.old.items ≤ 8 }
    requires room { All (λ desk. D.listings desk < 2 ^ 62) desks.old.items }
    ensures outcome { PushEnds D.tree workers D.listings D.faults
        (record { remaining = S.remaining input.old; written = K.contents output.old; offers = H.offers hook.old; faults = H.faults hook.old; desks = take workers desks.old.items })
        (record { remaining = S.remaining input.new; written = K.contents output.new; offers = H.offers hook.new; faults = H.faults hook.new; desks = take workers desks.new.items })
        result }
    ensures reads { ReadsInput (S.remaining input.old) (S.remaining input.new) result }
    ensures others { drop workers desks.new.items ≡ drop workers desks.old.items }
    ensures count { length desks.new.items ≡ length desks.old.items }
    ensures read_fault { result ≡ ServeEnd.ReadFault → Rose (S.faults input.old) (S.faults input.new) }
    ensures write_fault { result ≡ ServeEnd.WriteFault → Rose (K.faults output.old) (K.faults output.new) }
{
    let (mine, _others) = desks.as_mut_slice().split_at_mut(workers as usize);
    ended_by(serve_over(rt, alloc, input, output, hook, mine))
}

/// The end of a service that began, or ran out of memory before it did.
fn ended_by(served: Result<ServeEnd, NoMemory>) -> ServeEnd
    ensures { result ≡ ended_by served }
{
    served.unwrap_or(ServeEnd::NoMemory)
}

/// Serves with one worker for each desk.
fn serve_over<S: Source, K: Sink, H: Hook, D: Desk + Drop + Send + Sync, W: Threads + Wait + Sync>(
    rt: &W,
    alloc: Global,
    input: &mut S,
    output: &mut K,
    hook: &mut H,
    desks: &mut [D],
) -> Result<ServeEnd, NoMemory>
    requires workers { (1 ≤ length desks.old) × (length desks.old ≤ 8) }
    requires room { AllByRecursion (λ desk. D.listings desk < 2 ^ 62) desks.old }
    ensures outcome { PushEnds D.tree (length desks.old) D.listings D.faults
        (record { remaining = S.remaining input.old; written = K.contents output.old; offers = H.offers hook.old; faults = H.faults hook.old; desks = desks.old })
        (record { remaining = S.remaining input.new; written = K.contents output.new; offers = H.offers hook.new; faults = H.faults hook.new; desks = desks.new })
        (ended_by result) }
    ensures reads { ReadsInput (S.remaining input.old) (S.remaining input.new) (ended_by result) }
    ensures read_fault { ended_by result ≡ ServeEnd.ReadFault → Rose (S.faults input.old) (S.faults input.new) }
    ensures write_fault { ended_by result ≡ ServeEnd.WriteFault → Rose (K.faults output.old) (K.faults output.new) }
{
    let core = new_core(alloc)?;
    let blank = Blank::new(u64::from(MAX_LANES) + desks.len() as u64);
    serve_with::<S, K, H, D, Brand, W>(rt, alloc, blank, core, input, output, hook, desks)
}

/// Serves with a hub of its own.
fn serve_with<
    S: Source,
    K: Sink,
    H: Hook,
    D: Desk + Drop + Send + Sync,
    L: Identity + Send + Sync,
    W: Threads + Wait + Sync,
>(
    rt: &W,
    alloc: Global,
    blank: Blank,
    core: Core<D>,
    input: &mut S,
    output: &mut K,
    hook: &mut H,
    desks: &mut [D],
) -> Result<ServeEnd, NoMemory>
    requires name { blank.name ≡ L.name }
    requires parts { (blank.parts ≡ L.parts) × (L.parts ≡ 8 + length desks.old) }
    requires book { blank.book ≡ L.book }
    requires limits { L.limits ≡ record { images = MAX_IMAGES; feeds = MAX_FEEDS } }
    requires core { core ≡ opened L.limits }
    requires workers { (1 ≤ length desks.old) × (length desks.old ≤ 8) }
    requires room { AllByRecursion (λ desk. D.listings desk < 2 ^ 62) desks.old }
    ensures outcome { PushEnds D.tree (length desks.old) D.listings D.faults
        (record { remaining = S.remaining input.old; written = K.contents output.old; offers = H.offers hook.old; faults = H.faults hook.old; desks = desks.old })
        (record { remaining = S.remaining input.new; written = K.contents output.new; offers = H.offers hook.new; faults = H.faults hook.new; desks = desks.new })
        (ended_by result) }
    ensures reads { ReadsInput (S.remaining input.old) (S.remaining input.new) (ended_by result) }
    ensures read_fault { ended_by result ≡ ServeEnd.ReadFault → Rose (S.faults input.old) (S.faults input.new) }
    ensures write_fault { ended_by result ≡ ServeEnd.WriteFault → Rose (K.faults output.old) (K.faults output.new) }
{
    completeness_laws();
    let mut service = started::<D, L, W>(rt, alloc, blank, core, desks.len())?;
    let mut rounds = PushRounds::new();
    let end = serve_from(
        rt,
        alloc,
        &mut service,
        desks,
        input,
        output,
        &mut rounds,
        hook,
    );
    service.end(rt);
    Ok(end)
}
