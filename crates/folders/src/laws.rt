//! The laws of the names of files in their folders. Each is a function without parameters and without
//! a result whose contract is the law; calling it does nothing.

ghost use Rattle.std.specs.Prelude.{◌≡◌, ◌^◌, ◌<◌, ◌≤◌, ℕ, List, length};
ghost use Rattle.file_messages.specs.FileNames.{IsFileName};
ghost use Rattle.folders.specs.Marks.{IsMark, hidden_name};
ghost use Rattle.folders.specs.ShownNames.{IsNumbered, IsShownName, numbered};
ghost use Rattle.folders.specs.declared.mark.Mark.{Mark};

/// No two marks have one name, also not in two sessions.
pub fn marks_are_one()
    ensures { (session other : ℕ) (mark another : Mark) → session < 2 ^ 32 → other < 2 ^ 32 → IsMark mark
        → IsMark another → hidden_name session mark ≡ hidden_name other another
        → (session ≡ other) × (mark ≡ another) }
{}

/// The name of a mark has at most 247 bytes.
pub fn hidden_names_fit()
    ensures { (session : ℕ) (mark : Mark) → session < 2 ^ 32 → IsMark mark
        → length (hidden_name session mark) ≤ 247 }
{}

/// No file that goes over a relay has such a name, since it begins with a dot.
pub fn hidden_names_are_no_file_names()
    ensures { (session : ℕ) (mark : Mark) → IsFileName (hidden_name session mark) → ⊥ }
{}

/// A name with a number is that of one name and one number.
pub fn numbered_names_are_one()
    ensures { (name another : List ℕ) (number other : ℕ) → IsFileName name → IsFileName another
        → number < 2 ^ 48 → other < 2 ^ 48 → numbered name number ≡ numbered another other
        → (name ≡ another) × (number ≡ other) }
{}

/// No file has such a name itself, since no name of a file has a tilde.
pub fn numbered_names_are_no_file_names()
    ensures { (name : List ℕ) → IsNumbered name → IsFileName name → ⊥ }
{}

/// A name under which a file is shown has at most 144 bytes.
pub fn shown_names_fit()
    ensures { (name : List ℕ) → IsShownName name → length name ≤ 144 }
{}
