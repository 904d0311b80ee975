// Storing the message of a look.
ghost use Rattle.std.specs.Prelude.{IfSome};
ghost use Rattle.std.specs.Option.{option_copied};
ghost use Rattle.stable_buffer.specs.Low.{MayStore};
ghost use Rattle.low_process.specs.Storing.{StoreStep};

use disk_model::Disk;
use pump_frame::Payload;
use stable_buffer::LowStore;

// Stores the message, if there is one, and says whether that failed.
pub fn store_message<D: Disk>(message: Option<&Payload>, store: &mut LowStore<D>) -> bool
    requires { IfSome (option_copied message) (MayStore D.told store.old) }
    ensures { StoreStep D.told (option_copied message.entry) store.old store.new result }
{
    match message {
        None => false,
        Some(payload) => store.store(payload).is_err(),
    }
}
