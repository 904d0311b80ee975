// The names under which files are shown in the folder that they come into.
ghost use Rattle.std.specs.Prelude.{◌≡◌, ◌^◌, ◌<◌};
ghost use Rattle.folders.specs.ShownNames.{numbered};

use arrayvec::ArrayString;
use file_messages::FileName;

/// The name under which a file is shown where another one is shown under its own name already: that
/// name, `~`, and the number of the message with which the file ended.
pub fn numbered_name(name: &FileName, number: u64) -> ArrayString<144>
    requires { number < 2 ^ 48 }
    ensures { result.bytes ≡ numbered name.now number }
{
    let mut digits = itoa::Buffer::new();
    let mut text = ArrayString::new();
    text.push_str(name.as_str());
    text.push_str("~");
    text.push_str(digits.format(number));
    text
}
