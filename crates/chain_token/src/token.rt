// The chain, and who may use it.
ghost use Rattle.std.specs.Prelude.{◌≡◌, ◌≢◌, ◌<◌, ℕ, [], IsSome, Some};
ghost use Rattle.std.specs.declared.option.Option.{Option};
ghost use Rattle.chain_token.specs.Waiting.{IsQueue, next_in_line};
ghost use Rattle.chain_token.specs.Tokens.{holder, holder_of, waiting, Answers};
ghost use Rattle.chain_token.specs.declared.token.Side.TheVariants.{Free, Held};

use crate::Queue;

/// The chain: nobody's, or a grant's with its open scan.
pub(crate) enum Side<P, O> {
    Free(P),
    Held(O, u8),
}

/// The shared chain as a token: it is free with a `P`, or held by a grant with an `O`; and grants wait for it.
pub struct Token<P, O> {
    side: Side<P, O>,
    queue: Queue,
}

/// What a grant that asks for the chain is answered.
pub enum Asked<P, O> {
    /// The chain is the grant's, which waits no more.
    Yours(P, Queue),
    /// The grant waits.
    Wait(Token<P, O>),
}

impl<P, O> Token<P, O> {
    /// A free chain that nobody waits for.
    pub fn new(parked: P) -> Token<P, O>
        ensures free { result.side ≡ Free parked }
        ensures none { waiting result ≡ [] }
    {
        Token {
            side: Side::Free(parked),
            queue: Queue::new(),
        }
    }

    /// A free chain that these grants wait for.
    pub fn free(parked: P, queue: Queue) -> Token<P, O>
        ensures free { result.side ≡ Free parked }
        ensures waiting { waiting result ≡ queue }
    {
        Token {
            side: Side::Free(parked),
            queue,
        }
    }

    /// The chain with a grant's open scan.
    pub fn hold(scan: O, grant: usize, queue: Queue) -> Token<P, O>
        requires { grant < 16 }
        ensures held { result.side ≡ Held scan grant }
        ensures waiting { waiting result ≡ queue }
    {
        Token {
            side: Side::Held(scan, grant as u8),
            queue,
        }
    }

    /// Asks for the chain: a grant gets it exactly where nobody holds it and no other grant waits before this one. Otherwise it waits, at
    /// the end or where it was.
    pub fn ask(self, grant: usize) -> Asked<P, O>
        requires in_range { grant < 16 }
        requires other { holder self ≢ Some grant }
        ensures { Answers self grant result }
    {
        let Token { side, mut queue } = self;
        let grant = grant as u8;
        match side {
            Side::Free(parked) => {
                if queue.is_open_to(grant) {
                    queue.serve(grant);
                    Asked::Yours(parked, queue)
                } else {
                    queue.join(grant);
                    Asked::Wait(Token {
                        side: Side::Free(parked),
                        queue,
                    })
                }
            }
            Side::Held(scan, holder) => {
                queue.join(grant);
                Asked::Wait(Token {
                    side: Side::Held(scan, holder),
                    queue,
                })
            }
        }
    }

    /// Takes the open scan from its holder; those that wait stay.
    pub fn release(self) -> (O, Queue)
        requires { IsSome (holder self) }
        ensures scan { (grant : ℕ) → holder self ≡ Some grant → self.side ≡ Held result.0 grant }
        ensures waiting { result.1 ≡ waiting self }
    {
        let Token { side, queue } = self;
        match side {
            Side::Held(scan, _) => (scan, queue),
            Side::Free(_parked) => unreachable!(),
        }
    }

    /// Who goes on next: the first that waits for a free chain.
    pub fn next(&self) -> Option<usize>
        ensures { result ≡ next_in_line (holder self.now) (waiting self.now) }
    {
        match &self.side {
            Side::Free(_) => self.queue.grants().first().map(|grant| usize::from(*grant)),
            Side::Held(..) => None,
        }
    }

    /// The grant that holds the chain.
    pub fn held_by(&self) -> Option<usize>
        ensures { result ≡ holder self.now }
    {
        match &self.side {
            Side::Free(_) => None,
            Side::Held(_, grant) => Some(usize::from(*grant)),
        }
    }

    /// The grants that wait, the first to be served first.
    pub fn waiting(&self) -> &[u8]
        ensures list { result.now ≡ waiting self.now }
        ensures queue { IsQueue (waiting self.now) }
    {
        self.queue.grants()
    }
}
