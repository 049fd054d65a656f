ghost use Rattle.std.specs.Prelude.{◌≡◌, ◌==◌, ℕ, true, false, if◌then◌else◌, List, length, filter, map, Option, Some, None};
ghost use Rattle.std.specs.Option.{option_or};
ghost use Rattle.cv_base.specs.Texts.{has_text};
ghost use Rattle.cv_base.specs.declared.finding.Row.{Row};
ghost use Rattle.cv_desk.specs.Stored.{Stored};
ghost use Rattle.cv_scan.specs.Layers.{stored_layers};
ghost use Rattle.cv_core_machine.specs.Answer.{Read, answer_to, report_of, waiting_for, waiting_in};
ghost use Rattle.cv_core_machine.specs.Board.{board_answer, board_of};
ghost use Rattle.cv_core_machine.specs.History.{replies, state_after};
ghost use Rattle.cv_core_machine.specs.Laws.{HaveGenerations, HaveRows, IsConsistent, IsGenerationAfter, acknowledges, changes_nothing, changes_notifications, is_of_feed, is_updated, records_after, rows_if_any};
ghost use Rattle.cv_core_machine.specs.Rows.{rows_of};
ghost use Rattle.cv_core_machine.specs.Scans.{StatesEveryLayer, Trees, trees_of};
ghost use Rattle.cv_core_machine.specs.State.{Layers, State, notification_at, opening, value_at};
ghost use Rattle.cv_core_machine.specs.Step.{entered, step};
ghost use Rattle.cv_core_machine.specs.declared.event.MachineEvent.{MachineEvent};
ghost use Rattle.cv_core_machine.specs.declared.limits.Limits.{Limits};
ghost use Rattle.cv_core_machine.specs.declared.status.Status.{Status};
ghost use Rattle.cv_core_records.specs.declared.reply.Reply.{Reply};

/// What holds of every event. The state is as it was if the reply is one that changes nothing, `unchanged`. The generation is
/// one more if the reply is `Updated`, which names it, and else the same, `generation`. The limits stay, `limits`. The opening
/// state is consistent, `opening`, an event leaves a consistent state consistent, `consistent`, and so every state that events
/// lead to is, `reachable`.
pub fn step_laws()
    ensures unchanged { (trees : Trees) (state : State) (act : MachineEvent) → changes_nothing (step trees state act).1 ≡ true → (step trees state act).0 ≡ state }
    ensures generation { (trees : Trees) (state : State) (act : MachineEvent) → IsGenerationAfter state.generation (step trees state act).1 (step trees state act).0.generation }
    ensures limits { (trees : Trees) (state : State) (act : MachineEvent) → (step trees state act).0.limits ≡ state.limits }
    ensures opening { (limits : Limits) → IsConsistent (opening limits) }
    ensures consistent { (trees : Trees) (state : State) (act : MachineEvent) → IsConsistent state → IsConsistent (step trees state act).0 }
    ensures reachable { (trees : Trees) (limits : Limits) (acts : List MachineEvent) → IsConsistent (state_after trees (opening limits) acts) }
{}

/// The generation is how many events were replied to with `Updated`.
pub fn generation_law()
    ensures { (trees : Trees) (limits : Limits) (acts : List MachineEvent)
        → (state_after trees (opening limits) acts).generation ≡ length (filter is_updated (replies trees (opening limits) acts)) }
{}

/// What holds of the notifications. One stays as it is until an event acknowledges its number, `kept`. An event leaves all
/// of them unless its reply is `Updated` or `Acked`, `others`, and so does an image that is dropped, `dropped`. After
/// `Updated`, of an update or of a patch, there is one of the new generation with the rows of this event exactly if there
/// are any, and each other number has what it had, `updated`; the reply says how many rows there are, `counted`. After
/// `Ack` there is none of its number, and each other number has what it had, `acked`. None is without rows in a state that
/// events lead to, `reachable`.
pub fn notification_laws()
    ensures kept { (trees : Trees) (state : State) (act : MachineEvent) (number : ℕ) (rows : List Row) → IsConsistent state → acknowledges number act ≡ false
        → notification_at state.notifications number ≡ Some rows → notification_at (step trees state act).0.notifications number ≡ Some rows }
    ensures others { (trees : Trees) (state : State) (act : MachineEvent) → changes_notifications (step trees state act).1 ≡ false → (step trees state act).0.notifications ≡ state.notifications }
    ensures dropped { (trees : Trees) (state : State) (image : List ℕ) → (step trees state (MachineEvent.DropImage image)).0.notifications ≡ state.notifications }
    ensures updated { (trees : Trees) (state : State) (act : MachineEvent) (generation count number : ℕ) → IsConsistent state → (step trees state act).1 ≡ Reply.Updated generation count
        → notification_at (step trees state act).0.notifications number
        ≡ (if number == generation then rows_if_any (rows_of trees state (step trees state act).0.feeds) else notification_at state.notifications number) }
    ensures counted { (trees : Trees) (state : State) (act : MachineEvent) (generation count : ℕ) → (step trees state act).1 ≡ Reply.Updated generation count
        → count ≡ length (rows_of trees state (step trees state act).0.feeds) }
    ensures acked { (trees : Trees) (state : State) (number other : ℕ) → IsConsistent state
        → notification_at (step trees state (MachineEvent.Ack number)).0.notifications other ≡ (if number == other then None else notification_at state.notifications other) }
    ensures reachable { (trees : Trees) (limits : Limits) (acts : List MachineEvent) → HaveRows (state_after trees (opening limits) acts).notifications }
{}

/// A layer has the status that it had before layers enter the table, or else `Queued` if it is among them, or else none.
pub fn entered_law()
    ensures { (table : Layers) (layers : List (List ℕ)) (layer : List ℕ)
        → value_at (entered table layers) layer ≡ option_or (value_at table layer) (if has_text layers layer then Some Status.Queued else None) }
{}

/// What holds of the feeds. An event leaves the records and the generation of each feed that it neither updates nor patches,
/// `others`. After `Updated` its feed has the records of the update or those that the patch leaves it, `records`, and the generation
/// that the reply names, `generation`. Exactly the feeds that stand have a generation, before all events, `opening`, and after
/// an event if before it, `have`, and so in every state that events lead to, `reachable`.
pub fn feed_laws()
    ensures others { (trees : Trees) (state : State) (act : MachineEvent) (feed : List ℕ) → is_of_feed feed act ≡ false
        → (value_at (step trees state act).0.feeds feed ≡ value_at state.feeds feed) × (value_at (step trees state act).0.since feed ≡ value_at state.since feed) }
    ensures records { (trees : Trees) (state : State) (act : MachineEvent) (feed : List ℕ) (generation count : ℕ) → is_of_feed feed act ≡ true
        → (step trees state act).1 ≡ Reply.Updated generation count → value_at (step trees state act).0.feeds feed ≡ Some (records_after state.feeds act) }
    ensures generation { (trees : Trees) (state : State) (act : MachineEvent) (feed : List ℕ) (generation count : ℕ) → is_of_feed feed act ≡ true
        → (step trees state act).1 ≡ Reply.Updated generation count → value_at (step trees state act).0.since feed ≡ Some generation }
    ensures opening { (limits : Limits) → HaveGenerations (opening limits) }
    ensures have { (trees : Trees) (state : State) (act : MachineEvent) → HaveGenerations state → HaveGenerations (step trees state act).0 }
    ensures reachable { (trees : Trees) (limits : Limits) (acts : List MachineEvent) → HaveGenerations (state_after trees (opening limits) acts) }
{}

/// The layers of an image as the scan of one image reads them are those of the machine, if a desk's type is known.
pub fn scan_law()
    ensures { (tree : List ℕ → Option (Option (List Stored))) (layers : List (List ℕ)) → StatesEveryLayer tree → stored_layers tree layers ≡ Some (map (trees_of tree) layers) }
{}

/// A report is `NotRegistered` exactly if the image is not registered, and `Pending` exactly of the first of its layers that is not
/// indexed, whatever the layers have.
pub fn waiting_law()
    ensures { (trees : Trees) (state : State) (image : List ℕ) → waiting_in (report_of trees state image) ≡ waiting_for state image }
{}

/// A board of a state answers each read as the state does.
pub fn board_law()
    ensures { (trees : Trees) (state : State) (read : Read) → board_answer (board_of trees state) read ≡ answer_to trees state read }
{}
