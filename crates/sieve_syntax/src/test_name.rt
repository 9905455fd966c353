//! The names of tests in a tree.
ghost use Rattle.std.specs.Prelude.{◌≡◌, ◌≤◌, IfOk, IsOk, length};
ghost use Rattle.sieve_table.specs.Table.{test_named};

use octets::SmallOctets;
use sieve_table::{TestKind, test_named};
use sieve_variables::Labelled;
use std::alloc::{AllocError, Global};
use std::marker::Model;

/// The identifier of a test as it is written, and the test that it names, if any. It is looked up
/// where the tree is made, and nowhere else. Contracts see the octets.
#[derive(Drop)]
pub struct TestName {
    word: Labelled<Option<TestKind>>,
}

impl Model for TestName {
    ghost use Rattle.std.specs.Prelude.{◌≡◌, ℕ, List};
    ghost use Rattle.sieve_table.specs.Table.{test_named};

    ghost Value = { List ℕ };

    ghost view = { λ n. n.word.octets };

    ghost invariant = { λ n. n.word.label ≡ test_named n.word.octets };
}

impl TestName {
    /// The name with these octets. More than twelve take memory, as those of `mailboxexists` do. An
    /// error is out of memory.
    pub(crate) fn new(alloc: Global, octets: SmallOctets) -> Result<TestName, AllocError>
        ensures ok { IfOk result (λ name. name ≡ octets.items) }
        ensures few { length octets.items ≤ 12 → IsOk result }
    {
        let kind = test_named(&octets);
        Ok(TestName {
            word: Labelled::kept(alloc, kind, octets)?,
        })
    }

    /// The octets of the identifier as it is written. Case doesn't matter to Sieve (RFC 5228, 2.1).
    pub fn as_slice(&self) -> &[u8]
        ensures { result.now ≡ self.now }
    {
        self.word.octets()
    }

    /// The test that is named, or `None` if there is none of that name.
    pub fn kind(&self) -> Option<TestKind>
        ensures { result ≡ test_named self.now }
    {
        self.word.label()
    }
}
