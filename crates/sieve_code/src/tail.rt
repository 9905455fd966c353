//! Code that is made from its end.
ghost use Rattle.std.specs.Prelude.{◌≡◌, [], ◌∷◌, length, map, true, IfOk, OnOk};
ghost use Rattle.sieve_script.specs.view.Reading.{ask_as, leaf_as};
ghost use Rattle.sieve_code.specs.Operation.{act_op, test_op};
ghost use Rattle.sieve_code.specs.view.Operation.{is_plain, op_in, plain_as};
ghost use Rattle.sieve_code.specs.view.Pools.{pool_as};

use crate::operation::PackedOperation;
use crate::pools::{Pools, place_of};
use sieve_script::{ReadAsk, ReadLeaf};
use std::alloc::{AllocError, Global};
use std::collections::VecDeque;
use std::marker::Model;

/// The operations from some place to the end of the code. The target of a jump is the number of
/// operations from the target to the end. So operations that are put in front change none of the
/// others. Contracts see the list of operations.
#[derive(Drop)]
pub(crate) struct Tail {
    alloc: Global,
    ops: VecDeque<PackedOperation>,
    pools: Pools,
}

impl Model for Tail {
    ghost use Rattle.std.specs.Prelude.{◌≡◌, List, map};
    ghost use Rattle.sieve_code.specs.Operation.{Operation};
    ghost use Rattle.sieve_code.specs.Pool.{Keeps};
    ghost use Rattle.sieve_code.specs.view.Operation.{op_in};
    ghost use Rattle.sieve_code.specs.view.Pools.{pool_as};

    ghost Value = { List Operation };

    ghost view = { λ tail. map (op_in (pool_as tail.pools)) tail.ops.items };

    ghost invariant = { λ tail. Keeps (pool_as tail.pools) (λ p. map (op_in p) tail.ops.items) (map (op_in (pool_as tail.pools)) tail.ops.items) };
}

impl Tail {
    /// Makes a tail without operations.
    pub(crate) fn new(alloc: Global) -> Tail
        ensures { result ≡ [] }
    {
        Tail {
            alloc,
            ops: VecDeque::new(alloc),
            pools: Pools::new(alloc),
        }
    }

    /// The number of operations, as the target of a jump. More than 4,294,967,295 operations are
    /// answered as out of memory.
    pub(crate) fn target(&self) -> Result<u32, AllocError>
        ensures { IfOk result (λ target. target ≡ length self.now) }
    {
        place_of(self.ops.len())
    }

    /// Puts an operation in front that neither asks nor acts.
    pub(crate) fn put(&mut self, op: PackedOperation) -> Result<(), AllocError>
        requires { is_plain op ≡ true }
        ensures { OnOk result (self.new ≡ plain_as op ∷ self.old) }
    {
        self.ops.push_front(op)?;
        Ok(())
    }

    /// Puts the operation of a test that asks in front. An error is out of memory, or more strings,
    /// parts or places than 4,294,967,295. No operations are left if the question can't be added.
    pub(crate) fn put_ask(&mut self, ask: ReadAsk) -> Result<(), AllocError>
        ensures { OnOk result (self.new ≡ test_op (ask_as ask) ∷ self.old) }
    {
        match self.pools.add_ask(ask) {
            Ok(place) => {
                self.ops.push_front(PackedOperation::Test(place))?;
                Ok(())
            }
            Err(error) => {
                self.ops.clear();
                Err(error)
            }
        }
    }

    /// Puts the operation of a command that acts in front, with the command's line. An error is out
    /// of memory, or more strings, parts or places than 4,294,967,295. No operations are left if
    /// the command can't be added.
    pub(crate) fn put_act(&mut self, leaf: ReadLeaf, line: u32) -> Result<(), AllocError>
        ensures { OnOk result (self.new ≡ act_op (leaf_as leaf) line ∷ self.old) }
    {
        match self.pools.add_leaf(self.alloc, leaf) {
            Ok(leaf) => {
                self.ops.push_front(PackedOperation::Act { leaf, line })?;
                Ok(())
            }
            Err(error) => {
                self.ops.clear();
                Err(error)
            }
        }
    }

    /// The operations in order, and their pools. Memory that is kept for more is given back.
    pub(crate) fn into_parts(self) -> (Vec<PackedOperation>, Pools)
        ensures { map (op_in (pool_as result.1)) result.0.items ≡ self }
    {
        let mut ops = self.ops.into_vec();
        let mut pools = self.pools;
        ops.shrink_to_fit();
        pools.shrink_to_fit();
        (ops, pools)
    }
}
