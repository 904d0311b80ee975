//! The laws over all that may happen in a relay: in every interleaving and every crash of its world, in
//! pairs of timed runs, and in scripts. Each is a function without parameters and without a result whose
//! contract is the law; calling it does nothing. They rest on the definitions of the world, of its
//! replies and of scripts alone, and know nothing of a pump's code; `docs/model.md` tells them in
//! words. `two_worlds::laws` hands them on.
#![tactic(auto)]

ghost use Rattle.world_laws.specs.Laws.{EventsAreCertain, EveryWorldIsLawful, ForgedWorldsAreBounded};
ghost use Rattle.world_laws.specs.Laws.{TimedWorldsAreLawful, RunsHaveReplies, PairsAgree, AcknowledgedIsAccepted};
ghost use Rattle.world_laws.specs.Laws.{ThinnedHistoriesAgree, AcceptedOutlives, AcknowledgedOutlives};
ghost use Rattle.world_laws.specs.Classes.{ClassesAreFew};
ghost use Rattle.world_laws.specs.CoarseScripts.{CoarseTranscriptsAgree, CoarseScriptsAgree};
ghost use Rattle.world_laws.specs.CoarseScripts.{CoarseTranscriptsAgreeInEachSession, CoarseScriptsAgreeInEachSession};
ghost use Rattle.world_laws.specs.ListedAverages.{AveragesDecide, CoarsePairsAgree};
ghost use Rattle.world_laws.specs.Answered.{EveryWorldHasAnswered, TimedWorldsHaveAnswered, SessionsKeepAnswers};
ghost use Rattle.world_laws.specs.Timelines.{LinesAreSteps, ScriptsAreTimedRuns};
ghost use Rattle.world_laws.specs.TimelinesAlone.{LowLinesAreEvents, LowScriptsAreTimed};

/// An event leads to one world at most, so that what a step makes of a world is settled.
pub fn events_are_certain()
    ensures { EventsAreCertain }
{}

/// Whatever happens, and in whatever order, with crashes of the pump, the receiver or both at any
/// event, the world stays lawful: the receiver has the beginning of what was accepted, and no
/// message that is still needed is written over.
pub fn every_world_is_lawful()
    ensures { EveryWorldIsLawful }
{}

/// Whatever comes back to it, forged or not, the pump keeps its bounds.
pub fn forged_worlds_are_bounded()
    ensures { ForgedWorldsAreBounded }
{}

/// Whatever happens, the receiver has answered the last message that it took: that TAKEN was sent, since
/// the session began or before.
pub fn every_world_has_answered()
    ensures { EveryWorldHasAnswered }
{}

/// So it has in the world to which a timed run comes.
pub fn timed_worlds_have_answered()
    ensures { TimedWorldsHaveAnswered }
{}

/// So it has in each session of a script, with restarts of the processes and of the receiver, whatever
/// its disks were found to hold.
pub fn sessions_keep_answers()
    ensures { SessionsKeepAnswers }
{}

/// The world to which a timed run comes is lawful.
pub fn timed_worlds_are_lawful()
    ensures { TimedWorldsAreLawful }
{}

/// Each timed run has replies to the low party.
pub fn runs_have_replies()
    ensures { RunsHaveReplies }
{}

/// The low party's replies and their moments are a function of what is low's own, and of the feedback
/// up to its counts: two timed runs of one row that agree in these have the same replies, whatever
/// High, the network, the receiver and the high side do in each.
pub fn pairs_agree()
    ensures { PairsAgree }
{
    pump_core::sides_decide();
}

/// Low's own, the looks and openings that found the buffer full, and one list of the averages decide the
/// replies and their moments: two timed runs of one row that agree in these have the same replies. In
/// which looks the averages of the list were told, and when a message was passed that nobody waits for,
/// need not be said.
pub fn averages_decide()
    ensures { AveragesDecide }
{
    pump_core::sides_decide();
}

/// Where the session is coarse, what comes down from High is one of 31 classes for each exchange, and
/// which looks and openings found the buffer full (`pairs`): two timed runs of its row that agree in
/// low's own, in these, and in one class for each average, in order, have the same replies. A class is a
/// number below 31 (`few`).
pub fn coarse_pairs_agree()
    ensures pairs { CoarsePairsAgree }
    ensures few { ClassesAreFew }
{
    averages_decide();
}

/// Of two scripts whose session a line makes coarse, and which have one low side, the moments of a full
/// buffer, what each restart finds of it, and a class for each average decide the `low` lines, where no
/// two low looks have one moment: in whole transcripts (`whole`), and in what was printed so far, where
/// a line may have stopped a script (`so_far`). Their disks open alike for Low.
pub fn coarse_scripts_agree()
    ensures whole { CoarseTranscriptsAgree }
    ensures so_far { CoarseScriptsAgree }
{
    script_reader::full_moments_and_averages_decide();
}

/// In scripts of several sessions it is so of each session, by its own low side and what is printed of
/// it, whatever other sessions there are, do and are told.
pub fn coarse_scripts_agree_in_each_session()
    ensures whole { CoarseTranscriptsAgreeInEachSession }
    ensures so_far { CoarseScriptsAgreeInEachSession }
{
    coarse_scripts_agree();
}

/// Leaving out looks that find nothing, looks of a wait before its end and looks that find the
/// passage full changes no reply.
pub fn thinned_histories_agree()
    ensures { ThinnedHistoriesAgree }
{
    pump_core::thinned_histories_agree();
}

/// What a timed run acknowledged is among the accepted messages of its world, whatever crashed since.
pub fn acknowledged_is_accepted()
    ensures { AcknowledgedIsAccepted }
{}

/// Of three disks that stand for what a crash leaves of a lawful world, as those do that a pump hands
/// back: the receiver has a prefix of the accepted messages, and every accepted message that it has not
/// is in the live slots of the low disk.
pub fn accepted_outlives()
    ensures { AcceptedOutlives }
{}

/// .. and so of the world of a timed run: every message that was acknowledged and that the receiver has
/// not is in the live slots of the low disk.
pub fn acknowledged_outlives()
    ensures { AcknowledgedOutlives }
{}

/// A line of a script goes on with any timed run of its session, by the steps that stand for it: those of
/// the looks, the carried packets and the openings that it makes, and no others.
pub fn lines_are_steps()
    ensures { LinesAreSteps }
{}

/// What the session of a script has been through is a timed run, whatever the script's lines are and
/// whatever its disks were found to hold: what its looks were told is the feedback of that run, what they
/// were offered is what came on the connections, and its world is the one to which the run came. A
/// restart is a crash of the pump, after which the run has a new life.
pub fn scripts_are_timed_runs()
    ensures { ScriptsAreTimedRuns }
{}

/// A line of a low side alone goes on with whatever came to that side and the looks that it made, by
/// what comes with the line and its look.
pub fn low_lines_are_events()
    ensures { LowLinesAreEvents }
{}

/// To the low side alone of a script its arrivals come as they come on a connection: each look that may
/// take something was offered what came first and was not taken.
pub fn low_scripts_are_timed()
    ensures { LowScriptsAreTimed }
{}
