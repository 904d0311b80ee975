//! How the commands are typed, and what may stand for their values.

use std::fmt;

/// The commands: each with its words, and a line on what it does.
pub const COMMAND_LINES: &str = "type one of these after the program's name:
  replay                        reads a script from standard input and prints its transcript, as in: netpump replay < \
                                SCRIPT
  format TABLE S                formats the three empty disks of session S, which has a row in the file TABLE
  show TABLE S                  prints the counts of session S, and the messages on its low disk that are not removed
  exercise SEED COUNT           runs COUNT messages (1 to 100000) that are made from the number SEED, and prints a \
                                summary
  race SEED COUNT TIMES         runs such messages with both sides in threads of their own, and prints a record of \
                                Low's side
  serve TABLE S LOOKS           relays session S over the two ports of its row, both on 127.0.0.1, and prints a record \
                                of Low's side; each side makes LOOKS rounds
  receive TABLE S LOOKS         takes the messages of session S from its relay, and prints a line for each; it ends \
                                after LOOKS looks at the link
  send TABLE S LOOKS            sends the messages on standard input, a line of hexadecimal digits each, to the relay \
                                of session S, and prints a line for each that is stored; it waits LOOKS looks at most \
                                for an answer
  append TABLE S LOOKS          sends each line on standard input as a new message of session S, connects again where \
                                a connection breaks, and at its end prints how many lines are stored; LOOKS is how \
                                many looks and attempts to connect it makes at most
  drop TABLE S LOOKS FOLDER     sends the files of the folder FOLDER over the relay of session S, one after another, \
                                prints a line for each, and removes each once all of it is stored; it ends after LOOKS \
                                looks at the link
  collect TABLE S LOOKS FOLDER  puts the files that come from the relay of session S into the folder FOLDER, each when \
                                it is whole, and prints a line for each; it ends after LOOKS looks at the link
  migrate TABLE S NEWTABLE T    writes what session S has on the three empty disks of session T, which has a row in \
                                the file NEWTABLE, and changes none of its own
  wrap TABLE S                  sends the file on standard input over the pump of session S until its receiver has all \
                                of it, as in: netpump wrap TABLE S < FILE
  unwrap TABLE S                writes the file that the messages with the receiver of session S are, and nothing else
  messages TABLE S FROM         prints a line for each message that the receiver of session S has, from number FROM \
                                on, where 0 is the first; it may run beside the receiver
  status TABLE S                prints how many messages session S has accepted, removed and received, how many lie in \
                                its relay, and how many may; it may run beside the relay
  audit                         checks the record on standard input, and prints that it is clean, or the first line \
                                that is wrong and its cause, as in: netpump audit < RECORD
  compare                       compares Low's side of two records on standard input, with a line '# compare' between \
                                them, and prints that they agree, or the first item that differs
  chain                         reads a script of two sessions from standard input, of which the second one sends on \
                                what the receiver of the first one has, and prints its transcript, as in: netpump \
                                chain < SCRIPT";

const FILE: &str = "the name of a file in this folder";

const FOLDER: &str = "the name of a folder in this one";

const NAME: &str =
    "1 to 64 letters, digits, dots, underscores and dashes, the first a letter or a digit";

const TIMES: &str =
    "1 to 16 numbers up to 1000000000 with commas between, as 50,700,20: how many microseconds the \
    receiver takes for each message in turn";

const IDLE: &str = "a look or a round that finds nothing takes about a millisecond";

/// What may stand for the value of this name.
#[derive(Clone, Copy)]
pub struct Wanted<'a>(pub &'a str);

impl fmt::Display for Wanted<'_> {
    fn fmt<W: fmt::Write>(&self, f: &mut fmt::Formatter<W>) -> fmt::Result {
        match self.0 {
            "TABLE" | "NEWTABLE" => write!(f, "{FILE}: {NAME}"),
            "FOLDER" => write!(f, "{FOLDER}: {NAME}"),
            "LOOKS" => write!(
                f,
                "a number from 1 to 4294967295, without zeros before it; {IDLE}"
            ),
            "COUNT" => f.write_str("a number from 1 to 100000, without zeros before it"),
            "TIMES" => f.write_str(TIMES),
            _ => f.write_str(
                "a number below 4294967296, without a sign and without zeros before it",
            ),
        }
    }
}

/// The commands, and what may stand for all their values.
#[derive(Clone, Copy)]
pub struct Usage;

impl fmt::Display for Usage {
    fn fmt<W: fmt::Write>(&self, f: &mut fmt::Formatter<W>) -> fmt::Result {
        write!(
            f,
            "{COMMAND_LINES}
TABLE is {FILE}: {NAME}. NEWTABLE is spelled alike, and so is FOLDER, {FOLDER}. TIMES are {TIMES}. LOOKS is at least \
            1; {IDLE}. Numbers are written without a sign and without zeros before them, and are below 2^32"
        )
    }
}
