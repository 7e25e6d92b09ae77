// A connection that is polled, step by step.
ghost use Rattle.std.specs.Prelude.{◌≡◌, ◌≤◌, ◌<◌, ◌+◌, false};
ghost use Rattle.conn_tasks.specs.Reading.{total_of};

use crate::front::{NextPoll, next_front};
use crate::put::{Put, put_on};
use crate::reading::Awaited;
use crate::{LawfulLink, PollLink, Room};
use http_endpoint::{
    LinkCause, LinkEnd, Printed, answer_fixed, closes_after, print_result, print_stats,
};
use http_front::{Front, Method};
use rate_types::{OutOfMemory, Request, Seconds, Word};
use rls_core::{CheckFault, Reply};
use std::alloc::Global;

/// The most answers of one connection.
const MAX_ANSWERS: u32 = 1024;

/// Where a connection stands.
#[derive(Clone, Copy)]
pub enum Mode {
    /// It reads a request.
    Reading,
    /// A check waits for its answer.
    Checking,
    /// A request for the statistics waits for them.
    Telling,
    /// It writes an answer.
    Writing,
    Ended,
}

/// What a step comes to.
#[derive(Drop)]
pub enum Step {
    On,
    Wait,
    Check(Request, Seconds),
    Stats(Method),
    End(LinkEnd),
}

/// What a turn comes to.
#[derive(Drop)]
pub enum Turned {
    /// The link would wait.
    Pending,
    /// The check of this request is wanted, and offers this moment.
    Check(Request, Seconds),
    /// The statistics are wanted, by a request of this method.
    Stats(Method),
    /// The connection has ended.
    End(LinkEnd),
}

/// The parts of a connection.
#[derive(Drop)]
pub struct Conn<N: PollLink + Drop> {
    pub link: LawfulLink<N>,
    // Between two requests, of which no byte is read, it has none.
    pub room: Option<Room>,
    pub awaited: Awaited,
    pub printed: Printed,
    pub sent: usize,
    pub mode: Mode,
    // It closes behind the next answer.
    pub closes: bool,
    pub answers: u32,
    ghost awaits_few: { total_of awaited ≤ 1064960 },
    ghost few: { answers < 1024 },
    ghost last_closes: { closes ≡ false → answers + 1 < 1024 },
}

impl<N: PollLink + Drop> Conn<N> {
    ghost use Rattle.std.specs.Prelude.{◌≡◌, ◌≤◌, ◌+◌, ◌*◌, ◌∷◌, ◌++◌, [], List, ℕ, true, false, option_to_list};
    ghost use Rattle.std.specs.Option.{is_some};
    ghost use Rattle.rate_io.specs.Links.{LinkState};
    ghost use Rattle.rate_types.specs.Requests.{RequestParts};
    ghost use Rattle.http_endpoint.specs.Answers.{Asked, check, statistics_asked};
    ghost use Rattle.http_front.specs.Front.{is_waiting};
    ghost use Rattle.conn_tasks.specs.Conn.{seen, seen_in, seen_with, needs_room, IsFree};
    ghost use Rattle.conn_tasks.specs.Tasks.{IsOn, IsGoing, IsReading, IsWriting, IsChecking, IsTelling, IsWritten, HasFront, Steps, TurnsTo};
    ghost use Rattle.conn_tasks.specs.Tasks.{StandsAfter, StandsBehind, is_on, is_live, in_answer};

    /// A connection that was just handed out.
    pub fn new(link: N) -> Conn<N>
        ensures on { IsOn (N.state link).link [] (seen result) }
        ensures live { is_live result.mode ≡ true }
        ensures room { needs_room result.mode ≡ false }
    {
        let link = LawfulLink::new(link);
        Conn {
            link,
            room: None,
            awaited: Awaited::Head,
            printed: Printed::Text { closes: false },
            sent: 0,
            mode: Mode::Reading,
            closes: false,
            answers: 0,
        }
    }

    // Writes on.
    fn write_on(&mut self, room: &Room) -> Step
        requires mode { self.old.mode ≡ Mode.Writing }
        requires going { IsGoing (seen_in self.old room.now) }
        ensures steps { (first : LinkState) (asked : List Asked) → IsWriting first asked (seen_in self.old room.now)
            → Steps first asked self.old.link.waits (seen_in self.new room.now) result }
        ensures further { is_on result ≡ true → (self.new.mode ≡ Mode.Reading) × (self.new.answers ≡ self.old.answers + 1) }
        ensures mode { StandsAfter result self.new.mode }
        ensures waits { self.old.link.waits ≤ self.new.link.waits }
    {
        let piece = self.printed.bytes(room.out.text());
        match put_on(&mut self.link, piece, &mut self.sent) {
            Put::Wait => Step::Wait,
            Put::Failed => {
                self.mode = Mode::Ended;
                ended(LinkCause::WriteFault, self.answers)
            }
            Put::Done => self.go_on(),
        }
    }

    // An answer is written.
    fn go_on(&mut self) -> Step
        requires { self.old.mode ≡ Mode.Writing }
        ensures steps { (first : LinkState) (asked : List Asked) (kept out : List ℕ) → IsWritten first asked (seen_with self.old kept out)
            → Steps first asked self.old.link.waits (seen_with self.new kept out) result }
        ensures further { is_on result ≡ true → (self.new.mode ≡ Mode.Reading) × (self.new.answers ≡ self.old.answers + 1) }
        ensures mode { StandsAfter result self.new.mode }
        ensures link { self.new.link ≡ self.old.link }
    {
        if self.closes {
            self.mode = Mode::Ended;
            return ended(LinkCause::Closed, self.answers + 1);
        }
        self.mode = Mode::Reading;
        self.answers += 1;
        self.closes = self.answers + 1 == MAX_ANSWERS;
        Step::On
    }

    // Reads on.
    fn read_on(&mut self, alloc: Global, room: &mut Room) -> Step
        requires { self.old.mode ≡ Mode.Reading }
        ensures steps { (first : LinkState) (asked : List Asked) → IsReading first asked (seen_in self.old room.old)
            → Steps first asked self.old.link.waits (seen_in self.new room.new) result }
        ensures further { is_on result ≡ true → (self.new.mode ≡ Mode.Writing) × (self.new.answers ≡ self.old.answers) }
        ensures mode { StandsAfter result self.new.mode }
        ensures waits { self.old.link.waits ≤ self.new.link.waits }
    {
        match next_front(alloc, &mut room.inbox, &mut self.awaited, &mut self.link) {
            NextPoll::Wait => Step::Wait,
            NextPoll::Front(front) => self.take_front(room, front),
            NextPoll::NoMemory { sends_body } => {
                self.sent = 0;
                self.printed = Printed::NoMemory { sends_body };
                self.closes = true;
                self.mode = Mode::Writing;
                Step::On
            }
            NextPoll::Ended => {
                self.mode = Mode::Ended;
                ended(LinkCause::Ended, self.answers)
            }
            NextPoll::CutShort => {
                self.mode = Mode::Ended;
                ended(LinkCause::CutShort, self.answers)
            }
            NextPoll::ReadFault => {
                self.mode = Mode::Ended;
                ended(LinkCause::ReadFault, self.answers)
            }
        }
    }

    // A front stands there. For a check the clock is asked.
    fn take_front(&mut self, room: &mut Room, front: Front) -> Step
        requires waits { is_waiting front ≡ false }
        ensures steps { (first : LinkState) (asked : List Asked) → HasFront first asked front (seen_in self.old room.old)
            → Steps first asked self.old.link.waits (seen_in self.new room.new) result }
        ensures further { is_on result ≡ true → (self.new.mode ≡ Mode.Writing) × (self.new.answers ≡ self.old.answers) }
        ensures mode { StandsAfter result self.new.mode }
        ensures waits { self.new.link.waits ≡ self.old.link.waits }
    {
        match front {
            Front::Fixed { answer, .. } => {
                self.sent = 0;
                self.printed = answer_fixed(&mut room.out, answer, self.closes);
                self.closes = self.printed.closes();
                self.mode = Mode::Writing;
                Step::On
            }
            Front::Check {
                request,
                closes,
                ..
            } => {
                self.closes = closes_after(closes, self.closes);
                self.mode = Mode::Checking;
                let moment = self.link.now();
                Step::Check(request, moment)
            }
            Front::Stats { method, closes, .. } => {
                self.closes = closes_after(closes, self.closes);
                self.mode = Mode::Telling;
                Step::Stats(method)
            }
            Front::Ended | Front::CutShort => unreachable!(),
        }
    }

    /// Answers the check that waits.
    pub fn answer(&mut self, alloc: Global, came: Result<Reply, CheckFault>)
        requires mode { self.old.mode ≡ Mode.Checking }
        requires room { is_some self.old.room ≡ true }
        ensures answered { (first : LinkState) (asked : List Asked) (request : RequestParts) (now : ℕ)
            → IsChecking first asked request now (seen self.old)
            → IsOn first (asked ++ check (record { request = request; now = now; result = came }) ∷ []) (seen self.new) }
        ensures mode { self.new.mode ≡ Mode.Writing }
        ensures link { self.new.link ≡ self.old.link }
        ensures room { is_some self.new.room ≡ true }
    {
        let Some(mut room) = self.room.take() else {
            unreachable!()
        };
        self.print_answer(alloc, &mut room, came);
        self.room = Some(room);
    }

    // The answer is printed.
    fn print_answer(&mut self, alloc: Global, room: &mut Room, came: Result<Reply, CheckFault>)
        requires { self.old.mode ≡ Mode.Checking }
        ensures answered { (first : LinkState) (asked : List Asked) (request : RequestParts) (now : ℕ)
            → IsChecking first asked request now (seen_in self.old room.old)
            → IsOn first (asked ++ check (record { request = request; now = now; result = came }) ∷ []) (seen_in self.new room.new) }
        ensures mode { self.new.mode ≡ Mode.Writing }
        ensures link { self.new.link ≡ self.old.link }
    {
        self.sent = 0;
        self.printed = print_result(alloc, &mut room.out, came, self.closes);
        self.closes = self.printed.closes();
        self.mode = Mode::Writing;
    }

    /// Answers the request for the statistics that waits, which has this method, where they came to this.
    pub fn answer_stats(&mut self, method: Method, came: Result<Option<Word>, OutOfMemory>)
        requires mode { self.old.mode ≡ Mode.Telling }
        requires room { is_some self.old.room ≡ true }
        ensures answered { (first : LinkState) (asked : List Asked) → IsTelling first asked method (seen self.old)
            → IsOn first (asked ++ option_to_list (statistics_asked came)) (seen self.new) }
        ensures mode { self.new.mode ≡ Mode.Writing }
        ensures link { self.new.link ≡ self.old.link }
        ensures room { is_some self.new.room ≡ true }
    {
        let Some(mut room) = self.room.take() else {
            unreachable!()
        };
        self.print_answer_stats(&mut room, method, came);
        self.room = Some(room);
    }

    // The answer with the statistics is printed.
    fn print_answer_stats(
        &mut self,
        room: &mut Room,
        method: Method,
        came: Result<Option<Word>, OutOfMemory>,
    )
        requires { self.old.mode ≡ Mode.Telling }
        ensures answered { (first : LinkState) (asked : List Asked) → IsTelling first asked method (seen_in self.old room.old)
            → IsOn first (asked ++ option_to_list (statistics_asked came)) (seen_in self.new room.new) }
        ensures mode { self.new.mode ≡ Mode.Writing }
        ensures link { self.new.link ≡ self.old.link }
    {
        self.sent = 0;
        self.printed = print_stats(&mut room.out, method, came, self.closes);
        self.closes = self.printed.closes();
        self.mode = Mode::Writing;
    }

    // One step.
    fn step(&mut self, alloc: Global, room: &mut Room) -> Step
        requires live { is_live self.old.mode ≡ true }
        requires going { IsGoing (seen_in self.old room.old) }
        ensures steps { (first : LinkState) (asked : List Asked) → IsOn first asked (seen_in self.old room.old)
            → Steps first asked self.old.link.waits (seen_in self.new room.new) result }
        ensures mode { StandsAfter result self.new.mode }
        ensures further { is_on result ≡ true
            → 2 * self.new.answers + in_answer self.new.mode ≡ 2 * self.old.answers + in_answer self.old.mode + 1 }
        ensures waits { self.old.link.waits ≤ self.new.link.waits }
    {
        match self.mode {
            Mode::Reading => self.read_on(alloc, room),
            Mode::Writing => self.write_on(room),
            Mode::Checking | Mode::Telling | Mode::Ended => unreachable!(),
        }
    }

    // Goes on in this room until the link would wait, a check or the statistics are wanted, or the connection ends.
    fn turn_in(&mut self, alloc: Global, room: &mut Room) -> Turned
        requires live { is_live self.old.mode ≡ true }
        requires going { IsGoing (seen_in self.old room.old) }
        ensures turns { (first : LinkState) (asked : List Asked) → IsOn first asked (seen_in self.old room.old)
            → TurnsTo first asked self.old.link.waits (seen_in self.new room.new) result }
        ensures mode { StandsBehind result self.new.mode }
        ensures waits { self.old.link.waits ≤ self.new.link.waits }
    {
        'steps: loop {
            match self.step(alloc, room) {
                Step::On => {}
                Step::Wait => return Turned::Pending,
                Step::Check(request, moment) => return Turned::Check(request, moment),
                Step::Stats(method) => return Turned::Stats(method),
                Step::End(link_end) => return Turned::End(link_end),
            }
        }
    }

    // Its room, or else the one that is lent.
    fn take_room(&mut self, spare: &mut Option<Room>) -> Room
        requires { is_some self.old.room ≡ false → is_some spare.old ≡ true }
        ensures same { seen_in self.new result ≡ seen self.old }
        ensures mode { self.new.mode ≡ self.old.mode }
        ensures link { self.new.link ≡ self.old.link }
    {
        if let Some(room) = self.room.take() {
            return room;
        }
        let Some(mut room) = spare.take() else {
            unreachable!()
        };
        room.clear();
        room
    }

    // It wants no room.
    fn is_free(&self, room: &Room) -> bool
        ensures free { result ≡ true → IsFree self.now.mode room.now.inbox }
        ensures only { IsFree self.now.mode room.now.inbox → result ≡ true }
    {
        match self.mode {
            Mode::Reading => room.inbox.count() == 0,
            Mode::Checking | Mode::Telling | Mode::Writing => false,
            Mode::Ended => true,
        }
    }

    // Keeps the room, or gives it up where nothing in it is wanted any more.
    fn leave(&mut self, room: Room, spare: &mut Option<Room>)
        ensures turns { (first : LinkState) (asked : List Asked) (waits : ℕ) (came : Turned) → StandsBehind came self.old.mode
            → TurnsTo first asked waits (seen_in self.old room) came → TurnsTo first asked waits (seen self.new) came }
        ensures mode { self.new.mode ≡ self.old.mode }
        ensures link { self.new.link ≡ self.old.link }
        ensures room { needs_room self.new.mode ≡ true → is_some self.new.room ≡ true }
        ensures given { IsFree self.new.mode (seen self.new).kept → is_some spare.new ≡ true }
    {
        if self.is_free(&room) {
            self.room = None;
            *spare = Some(room);
        } else {
            self.room = Some(room);
        }
    }

    /// Something happened at its link.
    pub fn woken(&mut self, is_closed: bool)
        ensures same { seen self.new ≡ seen self.old }
        ensures room { self.new.room ≡ self.old.room }
    {
        self.link.woken(is_closed);
    }

    /// Goes on until the link would wait, a check or the statistics are wanted, or the connection ends. A room is lent to it where it has
    /// none.
    pub fn turn(&mut self, alloc: Global, spare: &mut Option<Room>) -> Turned
        requires live { is_live self.old.mode ≡ true }
        requires going { IsGoing (seen self.old) }
        requires room { is_some self.old.room ≡ false → is_some spare.old ≡ true }
        ensures turns { (first : LinkState) (asked : List Asked) → IsOn first asked (seen self.old)
            → TurnsTo first asked self.old.link.waits (seen self.new) result }
        ensures mode { StandsBehind result self.new.mode }
        ensures waits { self.old.link.waits ≤ self.new.link.waits }
        ensures room { needs_room self.new.mode ≡ true → is_some self.new.room ≡ true }
        ensures given { IsFree self.new.mode (seen self.new).kept → is_some spare.new ≡ true }
    {
        let mut room = self.take_room(spare);
        let turned = self.turn_in(alloc, &mut room);
        self.leave(room, spare);
        turned
    }
}

// It has ended.
fn ended(cause: LinkCause, answers: u32) -> Step
    ensures { result ≡ Step.End (record { cause = cause; answers = answers }) }
{
    Step::End(LinkEnd { cause, answers })
}
