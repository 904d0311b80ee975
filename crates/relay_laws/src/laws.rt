//! What High has of the messages, and of the files, that a relay accepted. Each law is the contract of a
//! function without a body.

ghost use Rattle.std.specs.Prelude.{◌≡◌, ◌++◌, ℕ, List, length};
ghost use Rattle.file_collector.specs.Collecting.{HasTaken, published};
ghost use Rattle.file_collector.specs.declared.collector.Collector.{Collector};
ghost use Rattle.file_dropper.specs.Leaving.{Fits};
ghost use Rattle.file_messages.specs.Files.{File};
ghost use Rattle.file_peers.specs.Collecting.{AreTurns as AreFileTurns, Turn as FileTurn, messages as file_messages};
ghost use Rattle.folders.specs.Outboxes.{Standing, files_in};
ghost use Rattle.high_process.specs.Past.{ProcessPast};
ghost use Rattle.peers.specs.Receiving.{AreTurns, Place, Turn, messages};
ghost use Rattle.pump_core.specs.Lawful.{IsPrefixOf};
ghost use Rattle.pump_frame.specs.declared.frame.Frame.{Frame};
ghost use Rattle.pump_frame.specs.declared.row.SessionRow.{SessionRow};
ghost use Rattle.relay_laws.specs.Heard.{CollectsOnly, HearsOnly};
ghost use Rattle.serving.specs.SentStored.{SentIsStored};

use folders::Inbox;

/// High's receiver has a prefix of what a relay accepted, each message once and in order, if it had one
/// before, and if each message that it hears was sent. The first follows from one call of the relay to the
/// next where the second opening finds what the first call left, which is no clause; the second is the
/// network's. What was accepted is the `earlier` messages, which were removed before the relay was opened,
/// and those that the opening found and that Low has stored since.
/// `BothServed` says of a relay that what it sent is stored so, and `Receives` of a receiver that these are
/// its turns.
pub fn receivers_of_a_relay_hold_a_prefix()
    ensures { (row : SessionRow) (earlier stored : List (List ℕ)) (sent : List Frame) (past : ProcessPast)
        (pairs : List (ℕ × ℕ)) (size : ℕ) (start : Place) (turns : List Turn) (had : List (List ℕ))
        → SentIsStored row (length earlier) stored sent past pairs → AreTurns row size start turns
        → HearsOnly row sent turns
        → length had ≡ start.count → IsPrefixOf had (earlier ++ stored)
        → IsPrefixOf (had ++ messages turns) (earlier ++ stored) }
{}

/// What High's party shows of files, over a relay, is a prefix of the files that Low's party took whole: of
/// those that it has removed, and then the marked one. It is so if High's party had taken a prefix of what the
/// relay accepted before, if each message that it hears was sent, and if the messages accepted fit Low's
/// folder. The last is what Low's party keeps (`KeepsFolder`), where nobody else sends in the session and no
/// file changes and changes back between two readings.
pub fn files_are_carried<I: Inbox>()
where
    I::Disk: Drop,
    ensures { (row : SessionRow) (earlier stored : List (List ℕ)) (sent : List Frame) (past : ProcessPast)
        (pairs : List (ℕ × ℕ)) (start : List (List ℕ)) (turns : List FileTurn) (folder : Standing)
        (c : Collector I I.Disk)
        → SentIsStored row (length earlier) stored sent past pairs → AreFileTurns row start turns
        → CollectsOnly row sent turns → IsPrefixOf start (earlier ++ stored) → Fits (earlier ++ stored) folder
        → HasTaken I.told I.Disk.told c (start ++ file_messages turns) → I.told.tells → I.Disk.told.tells
        → (rest : List File) × (folder.removed ++ files_in folder.marked
        ≡ published (I.told.shown c.gatherer.inbox) ++ rest) }
{}
