//! Laws of scripts and transcripts. Each is a function without a body whose contract is the law.

ghost use Rattle.std.specs.Prelude.{◌≡◌, ℕ, ◌≤◌, Bool, false, true, List, [], ◌∷◌, ◌++◌, length, Option, None, Some};
ghost use Rattle.std.specs.List.{AllByRecursion};
ghost use Rattle.script_reader.specs.declared.line.Line.{Line};
ghost use Rattle.script_reader.specs.Lines.{AreLines};
ghost use Rattle.pump_core.specs.Replies.{LowReplies};
ghost use Rattle.script_reader.specs.declared.event.Event.{Event as Printed};
ghost use Rattle.script_reader.specs.Openings.{Openings, nothing_found, CanOpen, opened_world};
ghost use Rattle.script_reader.specs.Scripts.{Begun, IsNew, LeadTo, Stops, ComesTo, IsTranscript};
ghost use Rattle.script_reader.specs.Faults.{IsFaulty, IsScriptFaulty};
ghost use Rattle.script_reader.specs.Sessions.{session_at, AreRising, Sessions, no_sessions, ScriptLeadsTo};
ghost use Rattle.script_reader.specs.Sessions.{ScriptStops, IsScriptTranscript, ScriptComesTo, lines_of, events_of};
ghost use Rattle.script_reader.specs.Readouts.{row_of, history_of, low_lines, KeepsBounds, Sound};
ghost use Rattle.script_reader.specs.declared.fault.Fault.{Fault};
ghost use Rattle.script_reader.specs.Sides.{low_side_of, told_to_low, full_moments, averages, restarts_in};
ghost use Rattle.script_reader.specs.Sides.{HaveOwnMoments, OpenAlike};
ghost use Rattle.script_reader.specs.declared.line.Line.TheVariants.{LowSession};
ghost use Rattle.pump_frame.specs.declared.row.SessionRow.{SessionRow};
ghost use Rattle.pump_frame.specs.Averages.{IsLevel};
ghost use Rattle.pump_frame.specs.Rows.{IsLawfulRow};
ghost use Rattle.pump_core.specs.World.{empty};

/// The bytes of a whole script are one list of lines at most.
pub fn one_reading()
    ensures { (all : List ℕ) (a b : List Line) → AreLines (Some all) a (Some []) → AreLines (Some all) b (Some [])
        → a ≡ b }
{}

/// The `low` lines of a transcript are the replies of its low history.
pub fn low_lines_are_replies()
    ensures { (o : Openings) (script : List Line) (s : Begun) (printed : List Printed) →
        LeadTo o None script (Some s) printed → LowReplies (row_of s) (history_of s) (low_lines printed) }
{}

/// Whatever the disks were found to hold and a script does, no more messages are live than there
/// are places, no more are held than lie between the hands, the receiver's list is a prefix of the
/// accepted one, and at most 64 arrivals wait.
pub fn transcripts_are_bounded()
    ensures { (o : Openings) (script : List Line) (s : Begun) (printed : List Printed) →
        LeadTo o None script (Some s) printed → KeepsBounds s }
{}

/// A script has one transcript at most, for what its disks were found to hold.
pub fn transcripts_are_one()
    ensures { (o : Openings) (script : List Line) (xs ys : List Printed) →
        IsTranscript o script xs → IsTranscript o script ys → xs ≡ ys }
{}

/// A script with a line that is outside the grammar, or can't be applied after the lines before it,
/// has no transcript.
pub fn faulty_scripts_have_no_transcript()
    ensures { (o : Openings) (all rest : List ℕ) (lines script : List Line) (running : Option Begun)
        (events printed : List Printed) →
        AreLines (Some all) lines (Some rest) → LeadTo o None lines running events → IsFaulty (Some rest) running →
        AreLines (Some all) script (Some []) → IsTranscript o script printed → ⊥ }
{}

/// What a script has printed is sound at each of its lines, also where the last one stops it: the `low`
/// lines are the replies of the low history, and the session keeps its bounds.
pub fn transcripts_are_sound()
    ensures end { (o : Openings) (script : List Line) (after : Option Begun) (printed : List Printed)
        → ComesTo o script after printed → Sound after printed }
    ensures each { (o : Openings) (before : List Line) (line : Line) (later : List Line) (after : Option Begun)
        (printed : List Printed) →
        ComesTo o (before ++ line ∷ later) after printed →
        (mid : Option Begun) × (first : List Printed) × (rest : List Printed) ×
        LeadTo o None before mid first × (printed ≡ first ++ rest) × Sound mid first }
{}

/// A script with a line that stops it, after lines that can all be applied, has no transcript, and
/// what the line leads to, what it prints and its fault are settled.
pub fn stopping_lines_are_one()
    ensures apart { (o : Openings) (lines : List Line) (line : Line) (later : List Line) (running after : Option Begun)
        (events first printed : List Printed) (fault : Fault) →
        LeadTo o None lines running events → Stops running line after first fault
        → IsTranscript o (lines ++ line ∷ later) printed → ⊥ }
    ensures one { (o : Openings) (lines : List Line) (line : Line) (running other after end : Option Begun)
        (events more first second : List Printed) (fault stop : Fault) →
        LeadTo o None lines running events → Stops running line after first fault →
        LeadTo o None lines other more → Stops other line end second stop →
        (after ≡ end) × (events ++ first ≡ more ++ second) × (fault ≡ stop) }
{}

/// New disks open as the empty world.
pub fn new_disks_open_empty()
    ensures can { (row : SessionRow) → CanOpen row nothing_found }
    ensures world { (row : SessionRow) → IsLawfulRow row → opened_world row nothing_found ≡ empty row.capacity }
{}

/// Low's replies are a function of low's own lines, of where the buffer was full, and of the averages:
/// two scripts with the same low side, whose transcripts tell Low the same in the same order, have the
/// same `low` lines at the same moments, whatever High, the network and the receiver do in each. No
/// count and no moment of what is told plays a part, and of what a restart finds only whether the buffer
/// was full. The disks of the two may have been found to hold other things, as long as Low's opening is
/// the same: as many messages, and the buffer full or not. So it is with what two scripts have printed so
/// far, where a line may have stopped them; and with one script in which other lines of High's stand in
/// place of some.
pub fn low_lines_are_a_function()
    ensures whole { (o p : Openings) (script other : List Line) (xs ys : List Printed) →
        IsTranscript o script xs → IsTranscript p other ys → OpenAlike o p script →
        low_side_of script ≡ low_side_of other → told_to_low xs ≡ told_to_low ys →
        low_lines xs ≡ low_lines ys }
    ensures so_far { (o p : Openings) (script other : List Line) (running after : Option Begun) (xs ys : List Printed) →
        ComesTo o script running xs → ComesTo p other after ys → OpenAlike o p script →
        low_side_of script ≡ low_side_of other → told_to_low xs ≡ told_to_low ys →
        low_lines xs ≡ low_lines ys }
    ensures replaced { (o p : Openings) (before highs others later : List Line) (xs ys : List Printed) →
        low_side_of highs ≡ [] → low_side_of others ≡ [] →
        IsTranscript o (before ++ (highs ++ later)) xs → IsTranscript p (before ++ (others ++ later)) ys →
        OpenAlike o p (before ++ (highs ++ later)) → told_to_low xs ≡ told_to_low ys →
        low_lines xs ≡ low_lines ys }
{}

/// Where no two low looks have one moment, the moments of a full buffer, what each restart finds of it,
/// and the averages alone decide the `low` lines of a low side.
pub fn full_moments_and_averages_decide()
    ensures whole { (o p : Openings) (script other : List Line) (xs ys : List Printed) →
        IsTranscript o script xs → IsTranscript p other ys → OpenAlike o p script →
        low_side_of script ≡ low_side_of other → HaveOwnMoments (low_side_of script) →
        full_moments xs ≡ full_moments ys → restarts_in xs ≡ restarts_in ys → averages xs ≡ averages ys →
        low_lines xs ≡ low_lines ys }
    ensures so_far { (o p : Openings) (script other : List Line) (running after : Option Begun) (xs ys : List Printed) →
        ComesTo o script running xs → ComesTo p other after ys → OpenAlike o p script →
        low_side_of script ≡ low_side_of other → HaveOwnMoments (low_side_of script) →
        full_moments xs ≡ full_moments ys → restarts_in xs ≡ restarts_in ys → averages xs ≡ averages ys →
        low_lines xs ≡ low_lines ys }
{}

/// Of a coarse session each average that a transcript says Low was told is one of the 31 levels, also in
/// what was printed so far, where a line may have stopped the script. So of such sessions the laws above
/// speak of levels in place of averages.
pub fn coarse_sessions_are_told_levels()
    ensures { (o : Openings) (script : List Line) (s : Begun) (printed : List Printed) →
        ComesTo o script (Some s) printed → (row_of s).coarse ≡ true → AllByRecursion IsLevel (averages printed) }
{}

/// A low side alone has one transcript, whatever lines are skipped in its script, and whatever any disks
/// were found to hold.
pub fn low_sides_have_one_transcript()
    ensures { (o p : Openings) (script other : List Line) (row : SessionRow) (next : ℕ) (held : Bool)
        (later : List Line) (xs ys : List Printed) →
        IsTranscript o script xs → IsTranscript p other ys →
        low_side_of script ≡ LowSession row next held ∷ later → low_side_of other ≡ LowSession row next held ∷ later →
        xs ≡ ys }
{}

/// In a script of several sessions each one stands alone: what its lines lead it to and print is what
/// they do in the script of its lines alone, in the words of a script of one session (`lead`), so far
/// also where a line has stopped the script (`so_far`), and over a whole script (`whole`). So every law
/// over scripts of one session holds of each session of a script, by the lines that name it and the lines
/// of the transcript that are its own. That script alone has a transcript as well, and it is those lines
/// of the transcript: with the others left out, each line is still in its turn (`alone`). So it has
/// printed as much so far (`alone_so_far`).
pub fn sessions_stand_alone()
    ensures lead { (o : Openings) (script : List Line) (t : Sessions) (printed : List Printed) →
        ScriptLeadsTo o no_sessions script t printed → (number : ℕ) →
        LeadTo o None (lines_of number script) (session_at number t.begun) (events_of number printed) }
    ensures so_far { (o : Openings) (script : List Line) (t : Sessions) (printed : List Printed) →
        ScriptComesTo o script t printed → (number : ℕ) →
        ComesTo o (lines_of number script) (session_at number t.begun) (events_of number printed) }
    ensures whole { (o : Openings) (script : List Line) (printed : List Printed) →
        IsScriptTranscript o script printed → (number : ℕ) →
        IsTranscript o (lines_of number script) (events_of number printed) }
    ensures alone { (o : Openings) (script : List Line) (printed : List Printed) →
        IsScriptTranscript o script printed → (number : ℕ) →
        IsScriptTranscript o (lines_of number script) (events_of number printed) }
    ensures alone_so_far { (o : Openings) (script : List Line) (t : Sessions) (printed : List Printed) →
        ScriptComesTo o script t printed → (number : ℕ) →
        (u : Sessions) × ScriptComesTo o (lines_of number script) u (events_of number printed) }
{}

/// The numbers of a script's sessions rise, so that no two have one number, and there are at most 16.
pub fn sessions_rise()
    ensures { (o : Openings) (script : List Line) (t : Sessions) (printed : List Printed) →
        ScriptLeadsTo o no_sessions script t printed → AreRising t.begun × (length t.begun ≤ 16) }
{}

/// Until a line comes that begins no session and makes none coarse, each session of a script is as a line
/// begins it: what its disks were found to hold, and no step since. So a coarse session was coarse from
/// its first step on.
pub fn sessions_begin_new()
    ensures { (o : Openings) (script : List Line) (t : Sessions) (printed : List Printed) →
        ScriptLeadsTo o no_sessions script t printed → t.is_under_way ≡ false →
        (number : ℕ) (s : Begun) → session_at number t.begun ≡ Some s → IsNew o s }
{}

/// What a script of several sessions has printed of each of them is sound at each of its lines, also where
/// the last one stops it, whichever session it is of: the session's `low` lines are the replies of its
/// low history, and it keeps its bounds.
pub fn whole_transcripts_are_sound()
    ensures end { (o : Openings) (script : List Line) (t : Sessions) (printed : List Printed)
        → ScriptComesTo o script t printed →
        (number : ℕ) → Sound (session_at number t.begun) (events_of number printed) }
    ensures each { (o : Openings) (before : List Line) (line : Line) (later : List Line) (t : Sessions)
        (printed : List Printed) →
        ScriptComesTo o (before ++ line ∷ later) t printed →
        (mid : Sessions) × (first : List Printed) × (rest : List Printed) ×
        ScriptLeadsTo o no_sessions before mid first × (printed ≡ first ++ rest) ×
        ((number : ℕ) → Sound (session_at number mid.begun) (events_of number first)) }
{}

/// A script of several sessions has one transcript at most, for what its disks were found to hold.
pub fn scripts_have_one_transcript()
    ensures { (o : Openings) (script : List Line) (xs ys : List Printed) →
        IsScriptTranscript o script xs → IsScriptTranscript o script ys → xs ≡ ys }
{}

/// A script of several sessions with a line that is outside the grammar, or can't be applied after the
/// lines before it, whichever sessions they name, has no transcript.
pub fn faulty_whole_scripts_have_no_transcript()
    ensures { (o : Openings) (all rest : List ℕ) (lines script : List Line) (t : Sessions)
        (events printed : List Printed) →
        AreLines (Some all) lines (Some rest) → ScriptLeadsTo o no_sessions lines t events
        → IsScriptFaulty (Some rest) t →
        AreLines (Some all) script (Some []) → IsScriptTranscript o script printed → ⊥ }
{}

/// A script of several sessions with a line that stops it, after lines that can all be applied, has no
/// transcript, and what the line leads to, what it prints and its fault are settled.
pub fn lines_stop_whole_scripts_in_one_way()
    ensures apart { (o : Openings) (lines : List Line) (line : Line) (later : List Line) (t u : Sessions)
        (events first printed : List Printed) (fault : Fault) →
        ScriptLeadsTo o no_sessions lines t events → ScriptStops t line u first fault
        → IsScriptTranscript o (lines ++ line ∷ later) printed → ⊥ }
    ensures one { (o : Openings) (lines : List Line) (line : Line) (t v u w : Sessions) (events more first second : List
        Printed) (fault stop : Fault) →
        ScriptLeadsTo o no_sessions lines t events → ScriptStops t line u first fault →
        ScriptLeadsTo o no_sessions lines v more → ScriptStops v line w second stop →
        (u ≡ w) × (events ++ first ≡ more ++ second) × (fault ≡ stop) }
{}

/// In scripts of several sessions the replies to the Low of a session are a function of this low's own
/// lines, of where its own buffer was full, and of its own averages: two scripts with the same low side of
/// the session, whose transcripts tell this Low the same in the same order, have the same `low` lines of
/// the session, whatever its High, its network and its receiver do in each, and whatever other sessions
/// there are and do. Only the session's own disks have to open alike. So it is with what two scripts have
/// printed so far, where a line of any session may have stopped them.
pub fn low_lines_are_a_function_in_each_session()
    ensures whole { (o p : Openings) (script other : List Line) (xs ys : List Printed) (number : ℕ) →
        IsScriptTranscript o script xs → IsScriptTranscript p other ys → OpenAlike o p (lines_of number script) →
        low_side_of (lines_of number script) ≡ low_side_of (lines_of number other) →
        told_to_low (events_of number xs) ≡ told_to_low (events_of number ys) →
        low_lines (events_of number xs) ≡ low_lines (events_of number ys) }
    ensures so_far { (o p : Openings) (script other : List Line) (t u : Sessions) (xs ys : List Printed) (number : ℕ) →
        ScriptComesTo o script t xs → ScriptComesTo p other u ys → OpenAlike o p (lines_of number script) →
        low_side_of (lines_of number script) ≡ low_side_of (lines_of number other) →
        told_to_low (events_of number xs) ≡ told_to_low (events_of number ys) →
        low_lines (events_of number xs) ≡ low_lines (events_of number ys) }
{}

/// Where no two low looks of the session have one moment, the moments at which its own buffer was full,
/// what each of its restarts finds of it, and its averages alone decide the `low` lines of a low side,
/// whatever other sessions there are and do.
pub fn full_moments_and_averages_decide_in_each_session()
    ensures whole { (o p : Openings) (script other : List Line) (xs ys : List Printed) (number : ℕ) →
        IsScriptTranscript o script xs → IsScriptTranscript p other ys → OpenAlike o p (lines_of number script) →
        low_side_of (lines_of number script) ≡ low_side_of (lines_of number other)
        → HaveOwnMoments (low_side_of (lines_of number script)) →
        full_moments (events_of number xs) ≡ full_moments (events_of number ys) →
        restarts_in (events_of number xs) ≡ restarts_in (events_of number ys) →
        averages (events_of number xs) ≡ averages (events_of number ys) →
        low_lines (events_of number xs) ≡ low_lines (events_of number ys) }
    ensures so_far { (o p : Openings) (script other : List Line) (t u : Sessions) (xs ys : List Printed) (number : ℕ) →
        ScriptComesTo o script t xs → ScriptComesTo p other u ys → OpenAlike o p (lines_of number script) →
        low_side_of (lines_of number script) ≡ low_side_of (lines_of number other)
        → HaveOwnMoments (low_side_of (lines_of number script)) →
        full_moments (events_of number xs) ≡ full_moments (events_of number ys) →
        restarts_in (events_of number xs) ≡ restarts_in (events_of number ys) →
        averages (events_of number xs) ≡ averages (events_of number ys) →
        low_lines (events_of number xs) ≡ low_lines (events_of number ys) }
{}
