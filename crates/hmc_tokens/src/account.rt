//! Tokens.

ghost use Rattle.std.specs.Prelude.{◌≡◌, ◌≤◌, ◌<◌, ◌+◌, ◌-◌};
ghost use Rattle.hmc_codes.specs.Limits.{most_tokens};
ghost use Rattle.hmc_tokens.specs.Account.{tokens_of_code, code_for};

/// The tokens of one end of a link. A token stands for a flit of a receiving buffer.
#[derive(Clone, Copy, PartialEq, Eq)]
pub struct Account {
    /// Tokens held for sending: free flits of the other end's buffer.
    pub held: u32,
    /// Tokens due for return: free flits of the own buffer that the other end doesn't know of.
    pub due: u32,
}

/// The tokens that a code returns: none for 0, else `2^(code - 1)`.
pub fn rtc_tokens(code: u8) -> u8
    requires { code < 8 }
    ensures { result ≡ tokens_of_code code }
{
    if code == 0 { 0 } else { 1 << (code - 1) }
}

/// The code for tokens that are due: the greatest up to 7 whose tokens are due, 0 where none is.
#[tactic(auto, unfolding(crate::specs::Account::code_for))]
pub fn rtc_for(due: u32) -> u8
    ensures code { result ≡ code_for due }
    ensures below { result < 8 }
    ensures is_due { tokens_of_code result ≤ due }
{
    let mut code = 7;
    'codes: while code > 0 && due < u32::from(rtc_tokens(code)) {
        code -= 1;
    }
    code
}

impl Account {
    ghost use Rattle.hmc_tokens.specs.Account.{opening_account};

    /// The account of an end that advertises so many tokens: all of them are due.
    pub fn new(advertised: u16) -> Self
        ensures { result ≡ opening_account advertised }
    {
        Account {
            held: 0,
            due: u32::from(advertised),
        }
    }

    /// Spends a token for each flit of a packet.
    pub fn spend(&mut self, flits: u8)
        requires { flits ≤ self.old.held }
        ensures { self.new ≡ record self.old { held = self.old.held - flits } }
    {
        self.held -= u32::from(flits);
    }

    /// Tokens came back.
    pub fn gain(&mut self, tokens: u8)
        requires { self.old.held + tokens ≤ most_tokens }
        ensures { self.new ≡ record self.old { held = self.old.held + tokens } }
    {
        self.held += u32::from(tokens);
    }

    /// A packet left the own buffer: a token for each of its flits is due.
    pub fn owe(&mut self, flits: u8)
        requires { self.old.due + flits ≤ most_tokens }
        ensures { self.new ≡ record self.old { due = self.old.due + flits } }
    {
        self.due += u32::from(flits);
    }

    /// The code that returns as many due tokens as one can; these are due no more.
    pub fn pay(&mut self) -> u8
        ensures code { result ≡ code_for self.old.due }
        ensures left { self.new ≡ record self.old { due = self.old.due - tokens_of_code result } }
    {
        let code = rtc_for(self.due);
        self.due -= u32::from(rtc_tokens(code));
        code
    }
}
