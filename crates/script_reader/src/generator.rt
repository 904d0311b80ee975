// A large script that is made from a number.
mod laws;

ghost use Rattle.std.specs.Prelude.{◌≡◌, ℕ, ◌+◌, ◌/◌, ◌%◌, ◌^◌, ◌<◌, ◌≤◌, [], ◌∷◌, length, MatchOption, IfSome};
ghost use Rattle.script_reader.specs.Generated.{drawn, counting, taking_time, is_seventh, generated_row, generated};
ghost use Rattle.script_reader.specs.Heads.{line_with, CanHoldLine};
ghost use Rattle.script_reader.specs.Lawful.{IsLawfulLine};

use crate::body::Body;
use crate::head::{Act, ArrivingHead, LineHead};
use crate::line::Line;
pub use laws::generated_lines_apply;
use pump_frame::{Name, SessionRow};
use std::marker::Model;

/// Which line comes next.
#[derive(Clone, Copy)]
enum Turn {
    Session,
    Hello,
    /// The first look of a message, to which it comes.
    Offer,
    /// The look that passes it on.
    Pass,
    /// The receiver takes a message before the acknowledgement.
    Take,
    /// The look after that.
    Taken,
    /// The look in which the acknowledgement is due.
    Acknowledge,
    /// The receiver takes so many messages.
    Takings(u32),
}

/// How far the lines of a generator have come.
#[derive(Clone, Copy)]
struct Progress {
    turn: Turn,
    // How many messages there are in all, and the number of the one that comes.
    count: u32,
    message: u32,
    // The word of its looks.
    word: u32,
    // The last draw, and the moment of what comes.
    draw: u32,
    moment: u64,
}

/// A large script that is made from a number, line by line: `docs/formats.md`, "Generated scripts", has
/// the rule. Contracts see the list of the lines that are left.
#[derive(Drop)]
pub struct Generator {
    progress: Progress,
}

impl Model for Generator {
    ghost use Rattle.std.specs.Prelude.{List};
    ghost use Rattle.script_reader.specs.declared.line.Line.{Line};
    ghost use Rattle.script_reader.specs.Generating.{left_of, IsOnTime};

    ghost Value = { List Line };

    ghost view = { λ s. left_of s.progress };

    ghost invariant = { λ s. IsOnTime s.progress };
}

fn next_draw(draw: u32) -> u32
    ensures { result ≡ drawn draw }
{
    draw.wrapping_mul(1_664_525).wrapping_add(1_013_904_223)
}

/// The body then holds the payload of a message, by a draw.
fn fill(body: &mut Body, message: u32, draw: u32)
    ensures value { body.new ≡ counting (draw / 2 ^ 24 % 65) message }
    ensures few { length body.new ≤ 64 }
{
    let count = (draw >> 24) % 65;
    // All are counted, in a loop whose length is known, and as many are taken as there are.
    let mut bytes = [0; 64];
    'bytes: for i in 0..64u32 {
        bytes[i as usize] = ((u64::from(message) + u64::from(i)) % 256) as u8;
    }
    body.set(&bytes[..count as usize]);
}

fn is_seventh(message: u32) -> bool
    ensures { result ≡ is_seventh message }
{
    message % 7 == 6
}

/// The line of this moment.
fn at(moment: u64, act: Act) -> LineHead
    ensures { result ≡ LineHead.At 1 moment act }
{
    LineHead::At {
        session: 1,
        moment,
        act,
    }
}

/// The row of a generated session.
pub fn generated_row() -> SessionRow
    ensures { result ≡ generated_row }
{
    SessionRow {
        id: 1,
        low: Name::from_slice(b"weather").unwrap(),
        high: Name::from_slice(b"watch").unwrap(),
        capacity: 8,
        message: 64,
        window: 4,
        start: 20_000,
        longest: 100_000,
        resend: 500_000,
        low_port: 0,
        high_port: 0,
        coarse: false,
    }
}

impl Progress {
    ghost use Rattle.std.specs.Prelude.{ℕ, List};
    ghost use Rattle.script_reader.specs.Generating.{left_of, IsOnTime, Gives};

    /// A look of the message that comes, to which this comes.
    fn look(&self, arrival: ArrivingHead) -> LineHead
        ensures { result ≡ LineHead.At 1 self.now.moment (Act.Look self.now.word arrival) }
    {
        let word = self.word;
        at(self.moment, Act::Look { word, arrival })
    }

    /// The receiver takes a message, after a time that is drawn and passes.
    fn done(&mut self) -> LineHead
        requires { self.old.moment ≤ 2 ^ 62 }
        ensures line { result ≡ LineHead.At 1 self.old.moment (Act.Done (taking_time (drawn self.old.draw))) }
        ensures after { self.new ≡ record self.old {
          draw = drawn self.old.draw;
          moment = self.old.moment + taking_time
              (drawn self.old.draw);
        } }
    {
        let moment = self.moment;
        self.draw = next_draw(self.draw);
        let time = self.draw >> 20;
        self.moment += u64::from(time);
        at(moment, Act::Done { time })
    }

    fn session(&mut self) -> LineHead
        requires turn { self.old.turn ≡ Turn.Session }
        requires time { IsOnTime self.old }
        ensures { (bytes : List ℕ) → Gives self.old self.new bytes result }
    {
        self.turn = Turn::Hello;
        LineHead::Session(generated_row())
    }

    fn hello(&mut self) -> LineHead
        requires turn { self.old.turn ≡ Turn.Hello }
        requires time { IsOnTime self.old }
        ensures { (bytes : List ℕ) → Gives self.old self.new bytes result }
    {
        self.turn = Turn::Offer;
        let row = generated_row();
        let arrival = ArrivingHead::Hello {
            low: row.low,
            high: row.high,
        };
        at(0, Act::Look { word: 0, arrival })
    }

    fn offer(&mut self, body: &mut Body) -> LineHead
        requires turn { self.old.turn ≡ Turn.Offer }
        requires time { IsOnTime self.old }
        requires more { self.old.message < self.old.count }
        ensures { Gives self.old self.new body.new result }
    {
        self.word = next_draw(self.draw);
        self.draw = next_draw(self.word);
        fill(body, self.message, self.draw);
        self.turn = Turn::Pass;
        let number = u64::from(self.message);
        self.look(ArrivingHead::Data { number })
    }

    fn pass(&mut self) -> LineHead
        requires turn { self.old.turn ≡ Turn.Pass }
        requires time { IsOnTime self.old }
        ensures { (bytes : List ℕ) → Gives self.old self.new bytes result }
    {
        self.turn = if is_seventh(self.message) {
            Turn::Take
        } else {
            Turn::Acknowledge
        };
        self.look(ArrivingHead::Nothing)
    }

    fn take(&mut self) -> LineHead
        requires turn { self.old.turn ≡ Turn.Take }
        requires time { IsOnTime self.old }
        ensures { (bytes : List ℕ) → Gives self.old self.new bytes result }
    {
        self.turn = Turn::Taken;
        self.done()
    }

    fn taken(&mut self) -> LineHead
        requires turn { self.old.turn ≡ Turn.Taken }
        requires time { IsOnTime self.old }
        ensures { (bytes : List ℕ) → Gives self.old self.new bytes result }
    {
        self.turn = Turn::Acknowledge;
        self.look(ArrivingHead::Nothing)
    }

    fn acknowledge(&mut self) -> LineHead
        requires turn { self.old.turn ≡ Turn.Acknowledge }
        requires time { IsOnTime self.old }
        ensures { (bytes : List ℕ) → Gives self.old self.new bytes result }
    {
        self.moment += 100_000;
        let head = self.look(ArrivingHead::Nothing);
        if is_seventh(self.message) {
            self.turn = Turn::Takings(6);
        } else {
            self.next_message();
        }
        head
    }

    fn take_one_of(&mut self, left: u32) -> LineHead
        requires turn { self.old.turn ≡ Turn.Takings left }
        requires time { IsOnTime self.old }
        ensures { (bytes : List ℕ) → Gives self.old self.new bytes result }
    {
        let head = self.done();
        if left > 1 {
            self.turn = Turn::Takings(left - 1);
        } else {
            self.next_message();
        }
        head
    }

    /// The next line, if one is left.
    fn next(&mut self, body: &mut Body) -> Option<LineHead>
        requires { IsOnTime self.old }
        ensures { MatchOption result ((left_of self.old ≡ [])
            × (self.new ≡ self.old)) (λ head. Gives self.old self.new body.new head) }
    {
        match self.turn {
            Turn::Session => Some(self.session()),
            Turn::Hello => Some(self.hello()),
            Turn::Offer => {
                if self.message == self.count {
                    return None;
                }
                Some(self.offer(body))
            }
            Turn::Pass => Some(self.pass()),
            Turn::Take => Some(self.take()),
            Turn::Taken => Some(self.taken()),
            Turn::Acknowledge => Some(self.acknowledge()),
            Turn::Takings(left) => Some(self.take_one_of(left)),
        }
    }

    fn next_message(&mut self)
        requires moment { self.old.moment ≤ 2 ^ 62 }
        requires message { self.old.message < 2 ^ 31 }
        ensures { self.new ≡ record self.old {
          turn = Turn.Offer;
          message = self.old.message + 1;
          moment = self.old.moment + 1000;
        } }
    {
        self.turn = Turn::Offer;
        self.message += 1;
        self.moment += 1000;
    }
}

impl Generator {
    /// The generator of so many messages, 1 to 100000.
    pub fn new(seed: u32, count: u32) -> Generator
        requires some { 1 ≤ count }
        requires few { count ≤ 100000 }
        ensures { result ≡ generated seed count }
    {
        Generator {
            progress: Progress {
                turn: Turn::Session,
                count,
                message: 0,
                word: 0,
                draw: seed,
                moment: 1000,
            },
        }
    }

    /// The next line, which is lawful; `None` where none is left.
    pub fn next_line(&mut self) -> Option<Line>
        ensures next { MatchOption result ((self.old ≡ []) × (self.new ≡ [])) (λ line. self.old ≡ line ∷ self.new) }
        ensures lawful { IfSome result IsLawfulLine }
    {
        let mut body = Body::new();
        match self.next_head(&mut body) {
            Some(head) => Some(head.with(body.as_slice())),
            None => None,
        }
    }

    /// As `next_line`, with the bytes that come with the line in the room.
    pub fn next_head(&mut self, body: &mut Body) -> Option<LineHead>
        ensures next { MatchOption result ((self.old ≡ []) × (self.new ≡ [])) (λ head. self.old
            ≡ line_with body.new head ∷ self.new) }
        ensures lawful { IfSome result (λ head. IsLawfulLine (line_with body.new head)) }
        ensures room { IfSome result (λ head. CanHoldLine head body.new) }
    {
        self.progress.next(body)
    }
}
