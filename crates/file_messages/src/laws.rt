//! The laws of files as messages. Each is a function without parameters and without a result whose
//! contract is the law; calling it does nothing.

ghost use Rattle.std.specs.Prelude.{◌≡◌, ◌↔◌, ◌≤◌, ◌∷◌, ◌++◌, [], ℕ, List, length};
ghost use Rattle.std.specs.List.{AllByRecursion};
ghost use Rattle.file_messages.specs.Messages.{Message};
ghost use Rattle.file_messages.specs.Files.{File, IsLawfulFile, State, Between, given, files, files_from, state_after};
ghost use Rattle.file_messages.specs.Cuts.{cut, cut_all, end_of, IsBrokenCut, BeginsNext, HasMessage};
ghost use Rattle.file_messages.specs.Assemblies.{answer};
ghost use Rattle.file_messages.specs.declared.assembly.Step.TheVariants.{Whole};

/// No message of a file is longer than the message size, where that leaves room for every name.
pub fn messages_fit()
    ensures { (message : ℕ) (file : File) → 138 ≤ message → IsLawfulFile file
        → AllByRecursion (λ m. length m ≤ message) (cut message file) }
{}

/// An assembly answers that a file is whole exactly where it is given.
pub fn whole_files_are_given()
    ensures { (state : State) (message : Message)
        → (answer state message ≡ Whole) ↔ ((file : File) × (given state message ≡ file ∷ [])) }
{}

/// What messages give stays given: those behind them only add files.
pub fn files_stay()
    ensures { (messages later : List (List ℕ)) → files (messages ++ later)
        ≡ files messages ++ files_from (state_after Between messages) later }
{}

/// Every file that messages give, whatever they are, is lawful, and its SHA-256 stands in an end among
/// them.
pub fn files_are_lawful()
    ensures { (messages : List (List ℕ)) → AllByRecursion
        (λ file. IsLawfulFile file × HasMessage messages (end_of file)) (files messages) }
{}

/// A file that is cut off and given up gives nothing, and leads back to between.
pub fn broken_cuts_give_nothing()
    ensures none { (message : ℕ) (file : File) (messages : List (List ℕ))
        → IsBrokenCut message file messages → files messages ≡ [] }
    ensures between { (message : ℕ) (file : File) (messages : List (List ℕ))
        → IsBrokenCut message file messages → state_after Between messages ≡ Between }
{}

/// The messages of files give these files again, and lead back to between.
pub fn cuts_give_the_files()
    ensures files { (message : ℕ) (all : List File) → 138 ≤ message → AllByRecursion IsLawfulFile all
        → files (cut_all message all) ≡ all }
    ensures between { (message : ℕ) (all : List File) → 138 ≤ message → AllByRecursion IsLawfulFile all
        → state_after Between (cut_all message all) ≡ Between }
{}

/// The first messages of files give the first files: those that are there to their end, behind which
/// stand at most some messages of the next one.
pub fn first_messages_give_the_first_files()
    ensures { (message : ℕ) (all : List File) (messages later : List (List ℕ)) → 138 ≤ message
        → AllByRecursion IsLawfulFile all → cut_all message all ≡ messages ++ later
        → (whole left : List File) × (part : List (List ℕ)) × (all ≡ whole ++ left)
        × (messages ≡ cut_all message whole ++ part) × BeginsNext message left part
        × (files messages ≡ whole) }
{}
