//! The laws of files as messages. Each is a function without parameters and without a result whose
//! contract is the law; calling it does nothing.

ghost use Rattle.std.specs.Prelude.{◌≡◌, ◌≤◌, ◌++◌, ℕ, List, Option, Result, Ok, IsTrue, length};
ghost use Rattle.std.specs.List.{AllByRecursion};
ghost use Rattle.std.specs.Io.KnownBytes.{Appends};
ghost use Rattle.pump_link.specs.Causes.{AppendsPrefix};
ghost use Rattle.pump_wrapper.specs.Wrapped.{unwrapped, wrapped};
ghost use Rattle.pump_wrapper.specs.Gathers.{Gathers};
ghost use Rattle.pump_wrapper.specs.declared.gathered.Gathered.{Gathered};
ghost use Rattle.pump_wrapper.specs.declared.gathered.GatherFault.{GatherFault};

/// A list is the messages of one file at most.
pub fn wrapped_files_are_one()
    ensures { (message : ℕ) (first second : List ℕ) → 2 ≤ message
        → wrapped message first ≡ wrapped message second → first ≡ second }
{}

/// The first messages of a file have its first bytes, and all of them have all.
pub fn messages_have_the_bytes()
    ensures prefix { (message : ℕ) (file : List ℕ) (messages rest : List (List ℕ)) → 2 ≤ message
        → wrapped message file ≡ messages ++ rest → file ≡ unwrapped messages ++ unwrapped rest }
    ensures all { (message : ℕ) (file : List ℕ) → 2 ≤ message
        → unwrapped (wrapped message file) ≡ file }
{}

/// No message of a file is longer than the message size, where that leaves room for its length.
pub fn messages_fit()
    ensures { (message : ℕ) (file : List ℕ) → 9 ≤ message
        → AllByRecursion (λ m. length m ≤ message) (wrapped message file) }
{}

/// What is gathered of the first messages of a file is a prefix of it, however that ends; and of all
/// its messages it is the file, where that ends well.
pub fn gathered_bytes_are_the_file()
    ensures prefix { (message : ℕ) (file : List ℕ) (messages rest : List (List ℕ))
        (old new : Option (List ℕ)) (result : Result Gathered GatherFault) → 2 ≤ message
        → wrapped message file ≡ messages ++ rest → Gathers message messages old new result
        → AppendsPrefix old new file }
    ensures all { (message : ℕ) (file : List ℕ) (old new : Option (List ℕ)) (gathered : Gathered)
        → 2 ≤ message → Gathers message (wrapped message file) old new (Ok gathered)
        → Appends old new file × (gathered.bytes ≡ length file) × IsTrue gathered.whole }
{}
