// What a slot holds is written and read where it lies.
ghost use Rattle.std.specs.Prelude.{◌≡◌, Some, IsSome};

use pump_frame::Item;

fn overwrite(old: &mut Item, item: &Item)
    ensures { old.new ≡ item.now }
{
    old.number = item.number;
    old.payload.set(item.payload.as_slice());
}

/// Puts the item into the slot. Of an item that was there, only the bytes that it had are written over.
pub fn fill(slot: &mut Option<Item>, item: &Item)
    ensures { slot.new ≡ Some item.now }
{
    match slot {
        Some(old) => overwrite(old, item),
        None => *slot = Some(*item),
    }
}

/// Copies the item that the slot holds.
pub fn copy_out(slot: &Option<Item>, into: &mut Item)
    requires { IsSome slot.now }
    ensures { slot.now ≡ Some into.new }
{
    let Some(item) = slot else { unreachable!() };
    overwrite(into, item);
}
