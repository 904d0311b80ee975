//! The laws of files that go out of a folder. Each is a function without parameters and without a
//! result whose contract is the law; calling it does nothing.

ghost use Rattle.std.specs.Prelude.{◌≡◌, ◌⊎◌, ◌++◌, ℕ, List};
ghost use Rattle.file_messages.specs.Files.{files};
ghost use Rattle.folders.specs.Outboxes.{Standing, files_in};
ghost use Rattle.file_dropper.specs.Leaving.{Fits};
ghost use Rattle.file_dropper.specs.Works.{MayGoOn, StandsBehind};
ghost use Rattle.file_dropper.specs.declared.dropper.Dropper.{Dropper};

use folders::Outbox;

/// Where messages fit, they give the files that were removed, or one more: the marked one.
pub fn accepted_files_are_the_removed()
    ensures { (accepted : List (List ℕ)) (s : Standing) → Fits accepted s → (files accepted ≡ s.removed)
        ⊎ (files accepted ≡ s.removed ++ files_in s.marked) }
{}

/// What a dropper stands behind fits what it leaves in its folder.
pub fn droppers_fit<O: Outbox>()
    ensures { (d : Dropper O O.File) (accepted : List (List ℕ)) → O.told.tells → MayGoOn O.told d
        → StandsBehind O.told O.File.left d accepted → Fits accepted (O.told.stands d.outbox) }
{}
