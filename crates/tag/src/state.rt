// The tag's radio state, and its moves.
ghost use Rattle.std.specs.Prelude.{◌≡◌};
ghost use Rattle.tag.specs.State.{field_off, field_lost, moved, woken, wait_state, back_to_wait, selected, activated, halted, granted, authenticated, answering};

// The state to go back to.
#[derive(Clone, Copy)]
pub enum Wait {
    ToIdle,
    ToHalt,
}

// READY1, READY2 and ACTIVE know the state to go back to, and ACTIVE alone whether it is authenticated.
#[derive(Clone, Copy)]
pub enum State {
    Idle,
    Halt,
    Ready1(Wait),
    Ready2(Wait),
    Active(Wait, bool),
}

fn wait_state(wait: Wait) -> State
    ensures { result ≡ wait_state wait }
{
    match wait {
        Wait::ToIdle => State::Idle,
        Wait::ToHalt => State::Halt,
    }
}

impl State {
    // Woken in IDLE or HALT, to READY1.
    pub fn woken(self) -> State
        ensures { result ≡ woken self }
    {
        match self {
            State::Idle => State::Ready1(Wait::ToIdle),
            State::Halt => State::Ready1(Wait::ToHalt),
            State::Ready1(_) | State::Ready2(_) | State::Active(_, _) => self,
        }
    }

    // Selected in READY1, to READY2, or in READY2, to ACTIVE.
    pub fn selected(self) -> State
        ensures { result ≡ selected self }
    {
        match self {
            State::Ready1(w) => State::Ready2(w),
            State::Ready2(w) => State::Active(w, false),
            State::Idle | State::Halt | State::Active(_, _) => self,
        }
    }

    // Read in READY1 or READY2, to ACTIVE.
    pub fn activated(self) -> State
        ensures { result ≡ activated self }
    {
        match self {
            State::Ready1(w) | State::Ready2(w) => State::Active(w, false),
            State::Idle | State::Halt | State::Active(_, _) => self,
        }
    }

    #[tactic(auto, unfolding(crate::specs::State::halted))]
    pub fn halted(self) -> State
        ensures { result ≡ halted self }
    {
        State::Halt
    }

    pub fn back_to_wait(self) -> State
        ensures { result ≡ back_to_wait self }
    {
        match self {
            State::Idle | State::Halt => self,
            State::Ready1(w) | State::Ready2(w) | State::Active(w, _) => wait_state(w),
        }
    }

    // Authenticated, in ACTIVE.
    pub fn granted(self) -> State
        ensures { result ≡ granted self }
    {
        match self {
            State::Active(w, _) => State::Active(w, true),
            State::Idle | State::Halt | State::Ready1(_) | State::Ready2(_) => self,
        }
    }
}

// The state, and whether a READ or FAST_READ was answered since the field came.
#[derive(Clone, Copy)]
pub struct Tag {
    pub state: State,
    pub answered: bool,
}

impl Tag {
    #[tactic(auto, unfolding(crate::specs::State::field_off))]
    pub fn field_off() -> Tag
        ensures { result ≡ field_off }
    {
        Tag {
            state: State::Idle,
            answered: false,
        }
    }

    // "Field loss gives IDLE, not authenticated, no read answered in this field"
    pub fn field_lost(self) -> Tag
        ensures { result ≡ field_lost self }
    {
        Tag::field_off()
    }

    #[tactic(auto, unfolding(crate::specs::State::moved))]
    pub fn moved(self, state: State) -> Tag
        ensures { result ≡ moved self state }
    {
        Tag { state, ..self }
    }

    pub fn authenticated(self) -> bool
        ensures { result ≡ authenticated self }
    {
        match self.state {
            State::Idle | State::Halt | State::Ready1(_) | State::Ready2(_) => false,
            State::Active(_, authenticated) => authenticated,
        }
    }

    #[tactic(auto, unfolding(crate::specs::State::answering))]
    pub fn answering(self) -> Tag
        ensures { result ≡ answering self }
    {
        Tag {
            answered: true,
            ..self
        }
    }
}
