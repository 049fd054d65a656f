ghost use Rattle.std.specs.Prelude.{◌≡◌, ◌<◌, ◌≤◌, ◌++◌, ◌+◌, ◌∷◌, [], false, None, Ok, length, map, option_map, vec_capacity, vec_len, IfOk, OnErr, OnOk};
ghost use Rattle.std.specs.Map.{keys_of};
ghost use Rattle.std.specs.Option.{option_to_list};
ghost use Rattle.cv_core_machine.specs.Scans.{StatesEveryLayer};
ghost use Rattle.cv_core_records.specs.Pages.{heads, notification_at};
ghost use Rattle.cv_hook.specs.Attempts.{IsDue, begun, goes_on};
ghost use Rattle.cv_serve_pushed.specs.Attempts.{AreLines, AreTaken, IsAttempted, IsAttemptedInPart, IsLeft, after_lines, hook_faults, notifications_after};
ghost use Rattle.cv_serve_lanes.specs.Counts.{RoseBy};
ghost use Rattle.cv_serve_pushed.specs.code.Going.{BeginsRoundFrom, IsHeadIn, WasOffered, due_number, line_if, lines_in, offers_in};

use cv_base::{NoMemory, Row, Seq};
use cv_core_machine::{notification_laws, step_laws};
use cv_desk::Desk;
use cv_hook::{Hook, HookFault, HookLine, Outbox, Outcome, Took};
use cv_hub_seats::{Identity, View};
use cv_notice::NoticeHead;
use std::alloc::Global;
use std::slice;

/// Makes the attempts of a round over the notifications that stand in a view, and gives their lines. All its memory but the hook's own is
/// taken before the first offer.
pub fn attempt_round<D: Desk, L: Identity, H: Hook>(
    alloc: Global,
    view: &View<D, L>,
    outbox: &mut Outbox,
    hook: &mut H,
) -> Result<Seq<HookLine>, NoMemory>
    ensures attempts { StatesEveryLayer D.tree → IfOk result (IsAttempted (notifications_after D.tree L.limits view.now.list) outbox.old (H.offers hook.old) (H.offers hook.new)) }
    ensures stopped { StatesEveryLayer D.tree → OnErr result (IsAttemptedInPart (notifications_after D.tree L.limits view.now.list) outbox.old outbox.new (H.offers hook.old) (H.offers hook.new) (H.faults hook.old) (H.faults hook.new)) }
    // The rest holds over any desk.
    ensures left { OnErr result (IsLeft outbox.old outbox.new (H.offers hook.old) (H.offers hook.new) (H.faults hook.old) (H.faults hook.new)) }
    ensures offers { IfOk result (λ lines. AreLines lines (H.offers hook.old) (H.offers hook.new)) }
    ensures outbox { IfOk result (λ lines. outbox.new ≡ after_lines (begun outbox.old) lines) }
    ensures faults { IfOk result (λ lines. RoseBy (hook_faults lines) (H.faults hook.old) (H.faults hook.new)) }
    ensures later { H.faults hook.old ≤ H.faults hook.new }
{
    outbox.begin_round();
    let (list, mut lines) = prepare(alloc, view)?;
    attempt_all(view, list.as_slice(), outbox, hook, &mut lines)?;
    Ok(Seq::of(lines))
}

/// The notifications that stand in a view, and room for a line of each.
fn prepare<D: Desk, L: Identity>(
    alloc: Global,
    view: &View<D, L>,
) -> Result<(Seq<NoticeHead>, Vec<HookLine>), NoMemory>
    ensures list { StatesEveryLayer D.tree → IfOk result (λ prepared. prepared.0 ≡ heads (notifications_after D.tree L.limits view.now.list)) }
    ensures empty { IfOk result (λ prepared. prepared.1.items ≡ []) }
    ensures room { IfOk result (λ prepared. vec_len prepared.1 + length prepared.0 ≤ vec_capacity prepared.1) }
{
    let list = view.list(alloc)?;
    let lines = Vec::with_capacity(alloc, list.as_slice().len())?;
    Ok((list, lines))
}

/// Offers each of the notifications if it is due, and adds the lines.
fn attempt_all<D: Desk, L: Identity, H: Hook>(
    view: &View<D, L>,
    list: &[NoticeHead],
    outbox: &mut Outbox,
    hook: &mut H,
    lines: &mut Vec<HookLine>,
) -> Result<(), NoMemory>
    requires empty { lines.old.items ≡ [] }
    requires room { vec_len lines.old + length list.now ≤ vec_capacity lines.old }
    ensures offered { WasOffered (StatesEveryLayer D.tree × (list.now ≡ heads (notifications_after D.tree L.limits view.now.list))) (notifications_after D.tree L.limits view.now.list) outbox.old outbox.new (H.offers hook.old) (H.offers hook.new) (H.faults hook.old) (H.faults hook.new) lines.new.items }
    ensures begins { StatesEveryLayer D.tree × (list.now ≡ heads (notifications_after D.tree L.limits view.now.list)) → BeginsRoundFrom outbox.old (keys_of (notifications_after D.tree L.limits view.now.list)) lines.new.items }
    ensures whole { StatesEveryLayer D.tree × (list.now ≡ heads (notifications_after D.tree L.limits view.now.list)) → OnOk result (IsDue outbox.new (keys_of (notifications_after D.tree L.limits view.now.list)) None) }
    ensures taken { OnErr result (AreTaken lines.new.items) }
{
    step_laws();
    for head in list {
        let line = attempt(view, head, outbox, hook)?;
        add(lines, line);
    }
    Ok(())
}

/// Adds the line of an attempt, if there was one, where there is room for it.
fn add(lines: &mut Vec<HookLine>, line: Option<HookLine>)
    requires { vec_len lines.old < vec_capacity lines.old }
    ensures items { lines.new.items ≡ lines.old.items ++ option_to_list line }
    ensures len { vec_len lines.new ≤ vec_len lines.old + 1 }
    ensures capacity { vec_capacity lines.new ≡ vec_capacity lines.old }
{
    if let Some(line) = line {
        lines.push_reserved(line);
    }
}

/// Offers a notification, if it is due.
fn attempt<D: Desk, L: Identity, H: Hook>(
    view: &View<D, L>,
    head: &NoticeHead,
    outbox: &mut Outbox,
    hook: &mut H,
) -> Result<Option<HookLine>, NoMemory>
    ensures offered { WasOffered (StatesEveryLayer D.tree × IsHeadIn (notifications_after D.tree L.limits view.now.list) head.now) (notifications_after D.tree L.limits view.now.list) outbox.old outbox.new (H.offers hook.old) (H.offers hook.new) (H.faults hook.old) (H.faults hook.new) (lines_in result) }
    ensures due { StatesEveryLayer D.tree → IsHeadIn (notifications_after D.tree L.limits view.now.list) head.now → IfOk result (λ line. IsDue outbox.old (head.now.number ∷ []) (due_number line)) }
    ensures ended { goes_on outbox.old.noted ≡ false → result ≡ Ok None }
{
    if outbox.due(slice::from_ref(head)).is_none() {
        return Ok(None);
    }
    let number = head.number;
    let Some(rows) = rows_of(view, head) else {
        return Ok(None);
    };
    let outcome = offer(hook, number, rows)?;
    outbox.note(number, outcome);
    Ok(Some(HookLine { number, outcome }))
}

/// All rows of a notification.
fn rows_of<'a, D: Desk, L: Identity>(view: &'a View<D, L>, head: &NoticeHead) -> Option<&'a [Row]>
    ensures { StatesEveryLayer D.tree → IsHeadIn (notifications_after D.tree L.limits view.now.list) head.now → option_map (λ rows. rows.now) result ≡ notification_at (notifications_after D.tree L.limits view.now.list) head.now.number }
{
    notification_laws();
    match view.page(head.number, head.rows.max(1), 1) {
        Ok(page) => Some(page.rows),
        Err(_) => None,
    }
}

/// Offers a notification, and says how that ended.
fn offer<H: Hook>(hook: &mut H, number: u64, rows: &[Row]) -> Result<Outcome, NoMemory>
    ensures offers { H.offers hook.new ≡ option_map (λ made. made ++ offers_in number rows.now result) (H.offers hook.old) }
    ensures faults { RoseBy (hook_faults (line_if number result)) (H.faults hook.old) (H.faults hook.new) }
    ensures later { H.faults hook.old ≤ H.faults hook.new }
{
    match hook.offer(number, rows) {
        Ok(Took::Taken) => Ok(Outcome::Taken),
        Ok(Took::Refused) => Ok(Outcome::Refused),
        Err(HookFault::Failed) => Ok(Outcome::Fault),
        Err(HookFault::NoMemory) => Err(NoMemory),
    }
}
