ghost use Rattle.std.specs.Prelude.{◌≡◌, is_some, IfOk};
ghost use Rattle.cv_core_machine.specs.Laws.{is_claimed};
ghost use Rattle.cv_core_machine.specs.State.{value_at};
ghost use Rattle.cv_core_machine.specs.Step.{entered};
ghost use Rattle.cv_core_registry.specs.code.Tables.{without_unused};

use crate::layer_table::LayerTable;
use crate::users::{Users, is_used};
use cv_base::{Digest, NoMemory};
use cv_core_machine::Status;
use cv_tree::Share;
use std::alloc::Global;

/// The table with those of these layers that it does not have, as queued.
pub fn entered(alloc: Global, table: &LayerTable, layers: &[Digest]) -> Result<LayerTable, NoMemory>
    ensures { IfOk result (λ after. after ≡ entered table.now layers.now) }
{
    let [layer, rest @ ..] = layers else {
        return table.share();
    };
    if is_known(table, layer) {
        return entered(alloc, table, rest);
    }
    let next = table.set(alloc, *layer, Status::Queued)?;
    entered(alloc, &next, rest)
}

/// The table without those of these layers that no image uses and that are not claimed.
pub fn without_unused(
    alloc: Global,
    table: &LayerTable,
    layers: &[Digest],
    users: &Users,
) -> Result<LayerTable, NoMemory>
    ensures { IfOk result (λ after. after ≡ without_unused table.now layers.now users.now) }
{
    let [layer, rest @ ..] = layers else {
        return table.share();
    };
    if is_used(users, layer) || is_claimed(table, layer) {
        return without_unused(alloc, table, rest, users);
    }
    let next = table.without(alloc, layer)?;
    without_unused(alloc, &next, rest, users)
}

fn is_known(table: &LayerTable, layer: &Digest) -> bool
    ensures { result ≡ is_some (value_at table.now layer.now) }
{
    table.contains(layer)
}

fn is_claimed(table: &LayerTable, layer: &Digest) -> bool
    ensures { result ≡ is_claimed (value_at table.now layer.now) }
{
    match table.get(layer) {
        Some(Status::Claimed(_)) => true,
        _ => false,
    }
}
