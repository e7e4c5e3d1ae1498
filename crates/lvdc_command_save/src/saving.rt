//! The reply of a machine that has stopped between two instruction times: its saved text.

ghost use Rattle.std.specs.Prelude.{◌≡◌, ◌%◌, List, map, None, IfOk};
ghost use Rattle.lvdc_port.specs.Device.{Device};
ghost use Rattle.lvdc_model.specs.Trial.{Trial};
ghost use Rattle.lvdc_model.specs.Voted.{Voted};
ghost use Rattle.lvdc_machine.specs.Shows.{Shows};
ghost use Rattle.lvdc_snapshot.specs.Snapshot.{IsWhole, Means};
ghost use Rattle.lvdc_machine.specs.declared.mode.Mode.TheVariants as modes;
ghost use Rattle.lvdc_save.specs.Saved.{saved_text};
ghost use Rattle.lvdc_command_save.specs.Answers.{saved_by};
ghost use Rattle.lvdc_command_save.specs.Halves.{IsTaken};
ghost use Rattle.lvdc_command_save.specs.Snapshots.{snapshot_of};

use crate::states::states_of;
use lvdc_machine::{Machine, Snapshot};
use lvdc_orders::Orders;
use lvdc_port::PortDevice;
use lvdc_reply::Reply;
use lvdc_save::{Saved, print_saved};
use lvdc_word::{NoMemory, Seq};
use std::alloc::Global;

/// The snapshot of a machine that judges.
fn snapshot(alloc: Global, machine: &Machine) -> Result<Snapshot, NoMemory>
    requires guarded { machine.now.mode ≡ modes.Guarded }
    requires going { machine.now.end ≡ None }
    requires times { machine.now.steps % 3 ≡ 0 }
    ensures whole { IfOk result IsWhole }
    ensures means { IfOk result (λ s. (o : Trial) (v : Voted) (ds : List Device) → Shows o machine.now ds v → Means s v) }
    ensures state { IfOk result (λ s. (o : Trial) (v : Voted) (ds : List Device) → Shows o machine.now ds v → s ≡ snapshot_of o.opening.banks v) }
{
    let snapshot = machine.snapshot(alloc)?;
    Ok(snapshot)
}

/// The saved text of a machine and its devices. What a deck asks for but for its orders, the machine has.
fn save_machine(
    alloc: Global,
    machine: &Machine,
    orders: Orders,
    devices: &[Box<dyn PortDevice>],
) -> Result<Vec<u8>, NoMemory>
    requires guarded { machine.now.mode ≡ modes.Guarded }
    requires going { machine.now.end ≡ None }
    requires times { machine.now.steps % 3 ≡ 0 }
    ensures text { IfOk result (λ text. (o : Trial) (v : Voted) → Shows o machine.now (map device_of devices.now) v
        → text.items ≡ saved_text (saved_by o.opening.banks v machine.now.limit machine.now.unplugs machine.now.script orders)) }
    ensures taken { IfOk result (λ _. (o : Trial) (v : Voted) → Shows o machine.now (map device_of devices.now) v
        → IsTaken (saved_by o.opening.banks v machine.now.limit machine.now.unplugs machine.now.script orders) v) }
{
    let states = states_of(alloc, devices)?;
    let snapshot = snapshot(alloc, machine)?;
    let unplugs = machine.unplugs(alloc)?;
    let script = machine.script(alloc)?;
    let saved = Saved {
        snapshot,
        count: machine.limit(),
        states: Seq::from_vec(states),
        unplugs,
        script,
        orders,
    };
    print_saved(alloc, &saved)
}

/// The reply of a machine that has not ended: its saved text.
pub(crate) fn reply_saved(
    alloc: Global,
    machine: &Machine,
    orders: Orders,
    devices: &[Box<dyn PortDevice>],
) -> Result<Reply, NoMemory>
    requires guarded { machine.now.mode ≡ modes.Guarded }
    requires going { machine.now.end ≡ None }
    requires times { machine.now.steps % 3 ≡ 0 }
    ensures status { IfOk result (λ reply. reply.status ≡ 0) }
    ensures text { IfOk result (λ reply. (o : Trial) (v : Voted) → Shows o machine.now (map device_of devices.now) v
        → reply.text ≡ saved_text (saved_by o.opening.banks v machine.now.limit machine.now.unplugs machine.now.script orders)) }
    ensures taken { IfOk result (λ _. (o : Trial) (v : Voted) → Shows o machine.now (map device_of devices.now) v
        → IsTaken (saved_by o.opening.banks v machine.now.limit machine.now.unplugs machine.now.script orders) v) }
{
    let text = save_machine(alloc, machine, orders, devices)?;
    Ok(Reply {
        status: 0,
        text: Seq::from_vec(text),
    })
}
