//! The laws of a chain. Each is a function without parameters and without a result whose contract is the
//! law; calling it does nothing.

ghost use Rattle.pump_chain.specs.Laws.{ChainsAreScripts, FirstIsItsOwn, SecondIsItsOwn, SecondIsNoMatter};
ghost use Rattle.pump_chain.specs.Laws.{FourArePrefixes};

/// A chain is a script of two sessions: whatever lines lead it, with each `step` read as the look that
/// adds what the sender had when it came, they are lines of such a script, in their turn, which leads each
/// session to the same past and prints the same. So every law over scripts of several sessions holds of
/// the two sessions of a chain.
pub fn chains_are_scripts()
    ensures { ChainsAreScripts }
{}

/// What a chain does with either session is what the script of this session's lines alone does: it comes
/// to the same past, and its lines of the output are all that this script prints. The first pump is not
/// held back by the second one; and the lines of the second one are looks where the script has steps.
pub fn sessions_are_their_own()
    ensures first { FirstIsItsOwn }
    ensures second { SecondIsItsOwn }
{
    chains_are_scripts();
}

/// The second pump is no matter to the first low: its replies and their moments are a function of its own
/// lines and of the first pump's feedback, whatever the second pump is and does.
pub fn second_pump_is_no_matter()
    ensures { SecondIsNoMatter }
{
    script_reader::low_lines_are_a_function();
    sessions_are_their_own();
}

/// Whatever lines lead a chain to, the second receiver's messages are the first ones that the second pump
/// has accepted, these are the first ones that the first receiver has, and these the first ones that the
/// first pump has accepted.
pub fn four_lists_are_prefixes()
    ensures { FourArePrefixes }
{
    script_reader::transcripts_are_bounded();
    sessions_are_their_own();
}
