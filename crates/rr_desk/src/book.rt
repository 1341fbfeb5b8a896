//! The book of a desk: what each edition adds. Only the number of editions is in memory.
//!
//! An edition is what one publication adds. [`Editions`], which the keeper owns, counts them in one
//! word; a [`Prefix`] is the book as far as it was seen. It may go to any thread, and two of them
//! can be compared: of two prefixes of one list, the longer begins with the shorter.
ghost use Rattle.std.specs.Prelude.{◌≡◌, [], ◌∷◌, ◌++◌, length, nat_le, IsTrue, IfOk, OnErr, OnOk};
ghost use mathlib.Core.List.{IsPrefix};
ghost use Rattle.rr_desk.specs.Editions.{head_of};
ghost use Rattle.rr_replica.specs.Becomes.{Becomes};

use logbook::{Gain, Offer, Plain, Play, Rule, Seen, Start, Word};
use rr_cells::Op;
use std::alloc::AllocError;
use std::collections::LinkedList;
use std::marker::{Brand, Model, PhantomData};

/// The rule of a book: its word counts the editions.
pub struct Law;

impl Rule<LinkedList<Op>, u64> for Law {
    ghost use Rattle.std.specs.Prelude.{[]};
    ghost use base.Fml.{ftrue};
    ghost use Rattle.rr_desk.specs.Editions.{IsCounted};

    ghost holds = { λ words editions. IsCounted words editions };

    ghost first = { [] };

    ghost hinted = { λ n editions. Unit {0} };

    ghost shows = { λ editions. [] };

    ghost keeps = { λ names editions. ftrue };

    ghost moves = { λ ask before after answer. Unit {0} };
}

/// What a step gives its caller to keep: nothing.
pub struct Nothing;

impl Gain<LinkedList<Op>, u64> for Nothing {
    ghost use base.Fml.{ftrue};

    ghost after = { λ names about answer. ftrue };
}

/// Which operations a step is about. Never constructed: each call picks them in its proof.
pub trait Batch {
    ghost use Rattle.std.specs.Prelude.{List};
    ghost use Rattle.rr_cells.specs.declared.op.Op.{Op};

    ghost batch: { List Op };
}

impl Batch for Brand {
    ghost use Rattle.std.specs.Prelude.{[]};

    ghost batch = { [] };
}

/// The step that adds an edition.
pub struct Adds<K> {
    of: PhantomData<K>,
}

impl<K: Batch> Play<LinkedList<Op>, u64> for Adds<K> {
    ghost use Rattle.rr_desk.specs.Editions.{Adds};

    ghost then = { Adds K.batch };
}

impl<K: Batch> Plain<(), LinkedList<Op>, u64> for Adds<K> {
    ghost use Rattle.std.specs.Prelude.{None};

    ghost ask = { λ _. K.batch };

    ghost state = { λ _. None };
}

/// Which desk it is, by its book. Never constructed.
pub struct DeskName {
    number: u64,
    log_name: u64,
    cells_name: u64,
}

impl Model for DeskName {
    ghost use Rattle.logbook.specs.Pages.{Book, book_coded};

    ghost Value = { Book };

    ghost coded = { book_coded };

    ghost view = { λ d. record { number = d.number; log_name = d.log_name; cells_name = d.cells_name } };
}

/// A prefix of a desk's book, as far as it was seen. It takes eight bytes.
#[derive(Drop)]
pub struct Prefix {
    count: u64,
    seen: Seen<LinkedList<Op>, u64, Law>,
}

impl Model for Prefix {
    ghost use Rattle.std.specs.Prelude.{◌≡◌, length};
    ghost use Rattle.rr_desk.specs.Editions.{BookPrefix};

    ghost Value = { BookPrefix };

    ghost view = { λ f. record { desk = f.seen.book; editions = f.seen.log } };

    ghost invariant = { λ f. f.count ≡ length f.seen.log };
}

impl Prefix {
    /// The same prefix again, without memory.
    pub fn again(&self) -> Prefix
        ensures { result ≡ self.now }
    {
        Prefix {
            count: self.count,
            seen: self.seen.again(),
        }
    }

    /// Whether another prefix of the same book begins with this one, as it does unless it is
    /// shorter.
    pub fn begins(&self, other: &Prefix) -> bool
        requires { self.now.desk ≡ other.now.desk }
        ensures length { result ≡ nat_le (length self.now.editions) (length other.now.editions) }
        ensures begins { IsTrue result → IsPrefix self.now.editions other.now.editions }
    {
        let mut both = self.seen.again();
        both.learn(&other.seen);
        self.count <= other.count
    }

    /// This prefix and one more edition, which the word counts too. Refused if the word has counted
    /// another one, or can count no more.
    fn next<K: Batch>(&self, head: &Word<LinkedList<Op>, u64, Law>) -> Result<Prefix, AllocError>
        requires { head.now ≡ head_of self.now.desk }
        ensures { IfOk result (λ f.
            f ≡ record { desk = self.now.desk; editions = self.now.editions ++ K.batch ∷ [] }) }
    {
        let old = self.count;
        if old == u64::MAX {
            return Err(AllocError);
        }
        let mut seen = self.seen.again();
        let mut offer: Offer<LinkedList<Op>, u64, Law, Nothing> = seen.plain::<
            Nothing,
            (),
            Adds<K>,
        >(&());
        let mut pen = seen.no_pen();
        let new = old + 1;
        let found = head.compare_exchange::<Adds<K>, Nothing>(
            old, new, &mut seen, &mut offer, &mut pen,
        );
        if found != old {
            return Err(AllocError);
        }
        Ok(Prefix { count: new, seen })
    }
}

/// The book as its keeper holds it, with all its editions.
#[derive(Drop)]
pub struct Editions {
    head: Word<LinkedList<Op>, u64, Law>,
    prefix: Prefix,
}

impl Model for Editions {
    ghost use Rattle.std.specs.Prelude.{◌≡◌};
    ghost use Rattle.rr_desk.specs.Editions.{BookPrefix, head_of};

    ghost Value = { BookPrefix };

    ghost view = { λ b. b.prefix };

    ghost invariant = { λ b. b.head ≡ head_of b.prefix.desk };
}

impl Editions {
    /// A new book, with no edition.
    pub fn open() -> Editions
        ensures { result.editions ≡ [] }
    {
        let (seen, mut first, _second) = Seen::open(Start::alone(), 0, 0);
        Editions {
            head: Word::tracked(0, &mut first),
            prefix: Prefix { count: 0, seen },
        }
    }

    /// All that it has, as a prefix.
    pub fn prefix(&self) -> Prefix
        ensures { result ≡ self.now }
    {
        self.prefix.again()
    }

    /// Adds an edition. It could be refused only if another keeper had added one to this book, or
    /// if 2^64 - 1 have been added.
    pub fn add<K: Batch>(&mut self) -> Result<(), AllocError>
        ensures state { Becomes self.old
            (record { desk = self.old.desk; editions = self.old.editions ++ K.batch ∷ [] })
            self.new result }
    {
        let next = self.prefix.next::<K>(&self.head)?;
        self.prefix = next;
        Ok(())
    }
}
