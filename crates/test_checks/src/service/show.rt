use crate::service::layers::{digest, letter_by, letter_of, sign_of, zeros};
use crate::service::step::Service;
use cv_base::{Digest, Finding, NoMemory, Row};
use cv_core::{NoticeHead, Notices, PageError, Reply, ReportRefusal};
use cv_overlay::{ImageFault, TreeFault};
use cv_transcript::reply_name;
use std::alloc::Global;
use test_plain::{Found, IMAGES, Lines};

/// The reply to an event.
pub fn show_reply(out: &mut Lines, reply: &Reply) {
    match reply {
        Reply::Conflict { kept, kept_seals } => {
            show_kept(out, kept.as_slice(), kept_seals.as_slice())
        }
        Reply::Updated { generation, rows } => out.updated(*generation, *rows),
        Reply::StaleBase { kept } => out.number("stale_base, kept ", *kept),
        _ => out.word(reply_name(reply)),
    }
}

/// The layers that an image keeps, and the signs of their seals, if one is stated.
fn show_kept(out: &mut Lines, kept: &[Digest], seals: &[Option<Digest>]) {
    show_layers(out, "conflict, kept", kept);
    if seals.iter().any(Option::is_some) {
        out.word(" sealed");
        for (layer, seal) in kept.iter().zip(seals) {
            out.letter(" ", sign_of(*seal, letter_of(*layer)));
        }
    }
}

fn show_layers(out: &mut Lines, word: &str, layers: &[Digest]) {
    out.word(word);
    for layer in layers {
        out.letter(" ", letter_of(*layer));
    }
}

/// How many events there were, which layers wait for a worker, the notifications, and the reports of all images that are registered.
pub fn show_state(alloc: Global, out: &mut Lines, core: &Service) {
    out.number(" | events ", core.count());
    show_queued(alloc, out, core);
    show_heads(alloc, out, core.notices());
    for image in IMAGES.iter() {
        show_report(out, core, *image, "");
    }
}

/// The layers that wait for a worker.
pub fn show_queued(alloc: Global, out: &mut Lines, core: &Service) {
    match core.queued(alloc) {
        Ok(queued) => show_layers(out, " | queued", queued.as_slice()),
        Err(NoMemory) => out.fail(),
    }
}

/// The notifications, with their numbers of rows.
pub fn show_heads(alloc: Global, out: &mut Lines, notices: &Notices) {
    out.word(" | notices");
    match notices.list(alloc) {
        Ok(heads) => show_all(out, heads.as_slice()),
        Err(NoMemory) => out.fail(),
    }
}

fn show_all(out: &mut Lines, heads: &[NoticeHead]) {
    for head in heads {
        out.head(head.number, head.rows);
    }
}

/// The report of an image, or a word if it is not registered.
pub fn show_report(out: &mut Lines, core: &Service, image: u8, absent: &str) {
    match &core.report(&digest(image)) {
        Ok(report) => show_good(out, image, report.generation, report.findings.as_slice()),
        Err(ReportRefusal::Pending(layer)) => out.pending(image, letter_of(*layer)),
        Err(ReportRefusal::BadImage(fault)) => show_bad(out, image, fault),
        Err(ReportRefusal::NotRegistered) => out.word(absent),
    }
}

fn show_good(out: &mut Lines, image: u8, generation: u64, findings: &[Finding]) {
    out.good(image, generation);
    for finding in findings {
        out.finding(found_of(finding));
    }
}

fn found_of(finding: &Finding) -> Found<'_> {
    Found {
        package: finding.package.name.as_str(),
        version: finding.package.version.as_str(),
        feed: finding.feed.as_str(),
        advisory: finding.advisory.as_str(),
        fixed: match &finding.fixed {
            Some(version) => version.as_str(),
            None => "none",
        },
    }
}

fn show_bad(out: &mut Lines, image: u8, fault: &ImageFault) {
    match fault {
        ImageFault::NoLayer(layer) => out.bad(image, " bad: no layer at ", u64::from(*layer)),
        ImageFault::BadTree(layer, TreeFault::NoParent(1)) => {
            out.bad(image, " bad: no good tree at ", u64::from(*layer))
        }
        ImageFault::BadTree(_, _) => out.word(" | bad in another way"),
        ImageFault::BadSeal {
            layer,
            stated,
            found,
        } => show_bad_seal(out, image, *layer, *stated, *found),
        ImageFault::BadFile { path, line, .. } => show_bad_file(out, image, path.text(), *line),
        ImageFault::TooLarge { .. } => out.word(" | bad in another way"),
    }
}

/// No seal is stated that no layer has but the one of zeros.
fn show_bad_seal(out: &mut Lines, image: u8, layer: u32, stated: Digest, found: Digest) {
    if stated != zeros() {
        return out.word(" | bad in another way");
    }
    out.bad_seal(image, u64::from(layer), letter_by(found))
}

fn show_bad_file(out: &mut Lines, image: u8, path: &str, line: u64) {
    if path != "var/lib/dpkg/status" {
        return out.word(" | bad in another way");
    }
    out.bad(image, " bad: status file at line ", line)
}

/// A page of a notification.
pub fn show_page(out: &mut Lines, notices: &Notices, number: u64, size: u64, page: u64) {
    if size < 1 || page < 1 {
        return out.word(" | no_page");
    }
    match notices.page(number, size, page) {
        Ok(shown) => show_rows(out, shown.pages, shown.rows),
        Err(PageError::NoNotification) => out.word(" | no_notification"),
        Err(PageError::NoPage { pages }) => out.number(" | no_page, pages: ", pages),
    }
}

fn show_rows(out: &mut Lines, pages: u64, rows: &[Row]) {
    out.number(" | pages: ", pages);
    for row in rows {
        out.row(letter_of(row.image), row.reason, found_of(&row.finding));
    }
}
