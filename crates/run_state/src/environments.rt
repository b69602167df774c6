//! The three environments: the one in force, and the others (manual, section 17).

ghost use Rattle.std.specs.Prelude.{◌≡◌, ◌+◌, ◌<◌, ◌↔◌, [], ◌∷◌, length, not, IfOk, IsErr};
ghost use Rattle.std.specs.Prelude.{IsOkUnless, MatchOption, OnOk, Some};
ghost use Rattle.page_model.specs.Words.{is_empty};
ghost use Rattle.run_model.specs.Environments.{PageHistory, environments, fresh_environment};
ghost use Rattle.run_model.specs.Environments.{gone_back, interrupted_line, switched_to};
ghost use Rattle.page_model.specs.declared.event.Event.TheVariants.{Count};
ghost use Rattle.run_model.specs.Environments.{turned_to, ring_turned, ring_turned_unless};
ghost use Rattle.run_model.specs.Environments.{with_event, with_input_trap};
ghost use Rattle.run_model.specs.Environments.{counted_down, trap_reached, with_interruption};
ghost use Rattle.run_model.specs.Springs.{springs};
ghost use Rattle.run_model.specs.declared.event.PageEvent.TheVariants.{Text};
ghost use Rattle.roff_num.specs.declared.limits.Limits.{Limits as LimitsOf};

use roff_lines::Env;
use roff_num::{Limit, Limits, ShortName};
use run_model::{EnvironmentNumber, InputTrap, TextLine};
use std::alloc::{AllocError, Global};
use std::marker::Model;
use std::mem;

/// An environment, what stands on its interrupted line, and its input-line trap.
#[derive(Drop)]
pub struct Environment {
    /// Its settings, its pending line and its open word.
    pub lines: Env,
    /// What stands on the line that was interrupted last.
    pub interrupted: TextLine,
    /// The macro that springs behind some text lines, if one does.
    pub input_trap: Option<InputTrap>,
}

/// The numbers of the environments that were left for others and aren't gone back to, up to a
/// limit.
///
/// All its memory is reserved as it is made.
#[derive(Drop)]
pub struct Left {
    /// The newest at the back.
    numbers: Vec<EnvironmentNumber>,
    cap: u32,
}

/// The environments, in a ring: the one in force, and those behind it, with 0 behind 2.
#[derive(Drop)]
pub struct Environments {
    /// The number of the one in force.
    pub number: EnvironmentNumber,
    /// The one in force.
    pub in_force: Environment,
    /// The one behind it.
    pub next: Environment,
    /// The one behind that.
    pub last: Environment,
    /// Those that were left.
    pub left: Left,
}

impl Model for Left {
    ghost use Rattle.run_state.specs.Environments.Kept.{IsSound, KeptNumbers, kept_by};

    ghost Value = { KeptNumbers };

    ghost view = { kept_by };

    ghost invariant = { IsSound };
}

impl Environment {
    ghost use Rattle.run_state.specs.Environments.Standing.{StandsAs};

    /// One in which nothing has happened, whose pending line may have `line_cap` bytes.
    fn new(alloc: Global, line_cap: u32) -> Result<Self, AllocError>
        ensures { IfOk result (λ e. StandsAs line_cap fresh_environment e) }
    {
        Ok(Environment {
            lines: Env::new(alloc, line_cap)?,
            interrupted: TextLine::new(),
            input_trap: None,
        })
    }

    /// Two fresh environments.
    fn pair(alloc: Global, line_cap: u32) -> Result<(Self, Self), AllocError>
        ensures { IfOk result (λ es. StandsAs line_cap fresh_environment es.0
            × StandsAs line_cap fresh_environment es.1) }
    {
        let first = Environment::new(alloc, line_cap)?;
        Ok((first, Environment::new(alloc, line_cap)?))
    }
}

impl Left {
    /// No environment was left yet; so many may be.
    fn new(alloc: Global, cap: u32) -> Result<Self, AllocError>
        ensures { IfOk result (λ l. l ≡ record { numbers = []; cap = cap }) }
    {
        Ok(Left {
            numbers: Vec::with_capacity(alloc, cap as usize)?,
            cap,
        })
    }

    /// Whether none was left.
    fn is_empty(&self) -> bool
        ensures { result ≡ is_empty self.now.numbers }
    {
        self.numbers.is_empty()
    }

    /// One more is left.
    fn push(&mut self, number: EnvironmentNumber) -> Result<(), Limit>
        ensures pushed { OnOk result (self.new
            ≡ record self.old { numbers = number ∷ self.old.numbers }) }
        ensures limit { IsErr result ↔ (self.old.cap < length self.old.numbers + 1) }
        ensures error { IsOkUnless result Limit.Environments }
    {
        if self.numbers.len() >= self.cap as usize {
            return Err(Limit::Environments);
        }
        self.numbers.push(number).unwrap();
        Ok(())
    }

    /// The one that was left last, which is gone back to.
    fn pop(&mut self) -> Option<EnvironmentNumber>
        ensures rest { MatchOption result
            ((self.old.numbers ≡ []) × (self.new.numbers ≡ []))
            (λ number. self.old.numbers ≡ number ∷ self.new.numbers) }
        ensures cap { self.new.cap ≡ self.old.cap }
    {
        self.numbers.pop()
    }
}

impl Environments {
    ghost use Rattle.run_state.specs.Environments.Standing.{Becomes, StandBy, StandsAs};

    /// Three in which nothing has happened; the one of number 0 is in force.
    ///
    /// # Errors
    ///
    /// [`AllocError`] if the memory for the limits can't be had.
    pub fn new(alloc: Global, limits: Limits) -> Result<Self, AllocError>
        ensures { IfOk result (λ es. StandBy limits (environments []) es) }
    {
        let (in_force, left) = Self::none_left(alloc, limits)?;
        let (next, last) = Environment::pair(alloc, limits.line)?;
        Ok(Environments {
            number: EnvironmentNumber::Zero,
            in_force,
            next,
            last,
            left,
        })
    }

    /// The environment in force in which nothing has happened, and none that was left.
    fn none_left(alloc: Global, limits: Limits) -> Result<(Environment, Left), AllocError>
        ensures { IfOk result (λ made. StandsAs limits.line fresh_environment made.0
            × (made.1 ≡ record { numbers = []; cap = limits.environments })) }
    {
        let in_force = Environment::new(alloc, limits.line)?;
        Ok((in_force, Left::new(alloc, limits.environments)?))
    }

    /// Whether one was left that may be gone back to.
    pub fn has_left(&self) -> bool
        ensures { (l : LimitsOf) (h : PageHistory) → StandBy l (environments h) self.now
            → result ≡ not (is_empty (environments h).left) }
    {
        !self.left.is_empty()
    }

    /// The interrupted line of the one in force that the next text line goes on with.
    pub fn interrupted_line(&self) -> Option<TextLine>
        ensures { (l : LimitsOf) (h : PageHistory) → StandBy l (environments h) self.now
            → result ≡ interrupted_line h }
    {
        if !self.in_force.lines.is_interrupted() {
            return None;
        }
        Some(self.in_force.interrupted)
    }

    /// Interrupts the line of the one in force, on which this stands.
    pub fn interrupt(&mut self, line: TextLine)
        ensures { Becomes (with_interruption line) self.old self.new }
    {
        self.in_force.lines.interrupt();
        self.in_force.interrupted = line;
    }

    /// The one in force has this input-line trap from now on, or none.
    pub fn set_input_trap(&mut self, trap: Option<InputTrap>)
        ensures { Becomes (with_input_trap trap) self.old self.new }
    {
        self.in_force.input_trap = trap;
    }

    /// A text line of the one in force was read, and counts. Returns the macro that it springs, if
    /// it is the last line that the input-line trap waits for.
    #[inline(always)]
    pub fn count(&mut self) -> Option<ShortName>
        ensures counted { Becomes (with_event Count) self.old self.new }
        ensures reached { (l : LimitsOf) (h : PageHistory) → StandBy l (environments h) self.old
            → result ≡ springs h (Text Count) }
    {
        self.in_force.lines.count();
        match self.in_force.input_trap {
            None => None,
            Some(trap) => self.count_down(trap),
        }
    }

    /// The trap of the one in force, which is this one, waits for a line less.
    #[cold]
    fn count_down(&mut self, trap: InputTrap) -> Option<ShortName>
        ensures change { self.new ≡ record self.old {
          in_force = record self.old.in_force { input_trap = counted_down (Some trap) };
        } }
        ensures reached { result ≡ trap_reached (Some trap) }
    {
        if trap.lines > 1 {
            self.in_force.input_trap = Some(InputTrap {
                lines: trap.lines - 1,
                name: trap.name,
            });
            return None;
        }
        self.in_force.input_trap = None;
        Some(trap.name)
    }

    /// Leaves the one in force for another.
    ///
    /// # Errors
    ///
    /// [`Limit::Environments`] if more would be left than may; the environments are then as they
    /// were.
    pub fn switch_to(&mut self, number: EnvironmentNumber) -> Result<(), Limit>
        ensures stands { OnOk result (Becomes (switched_to number) self.old self.new) }
        ensures limit { (l : LimitsOf) (h : PageHistory) → StandBy l (environments h) self.old
            → (IsErr result ↔ (l.environments < length (environments h).left + 1)) }
        ensures error { IsOkUnless result Limit.Environments }
    {
        match self.left.push(self.number) {
            Ok(()) => {
                self.turn_to(number);
                Ok(())
            }
            Err(limit) => Err(limit),
        }
    }

    /// Goes back to the one that was left last, if one was.
    pub fn switch_back(&mut self)
        ensures { Becomes (λ es. gone_back es.left es) self.old self.new }
    {
        if let Some(number) = self.left.pop() {
            self.turn_to(number);
        }
    }

    /// Turns the ring until this one is in force.
    fn turn_to(&mut self, number: EnvironmentNumber)
        ensures { Becomes (turned_to number) self.old self.new }
    {
        let is_there = self.number.is(number);
        self.turn_unless(is_there);
        let is_there = self.number.is(number);
        self.turn_unless(is_there);
    }

    /// Turns the ring once more, unless the right one is in force.
    fn turn_unless(&mut self, is_there: bool)
        ensures { Becomes (ring_turned_unless is_there) self.old self.new }
    {
        if !is_there {
            self.turn();
        }
    }

    /// Turns the ring, so that the next one is in force.
    fn turn(&mut self)
        ensures { Becomes ring_turned self.old self.new }
    {
        mem::swap(&mut self.in_force, &mut self.next);
        mem::swap(&mut self.next, &mut self.last);
        self.number = self.number.behind();
    }
}
