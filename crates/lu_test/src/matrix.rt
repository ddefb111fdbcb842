//! Matrices.

ghost use Rattle.std.specs.Prelude.{◌≡◌, ◌<◌, ◌≤◌, ◌↔◌, IsTrue, IsSome, IfSome, length, slice_get, remove, All, Some};
ghost use Rattle.lu_component.specs.Component.{IsComponent};
ghost use Rattle.lu_test.specs.Matrix.{AreThreads, IsCallAmong, IsMatrix, IsOf, IsSetup, calls_of, matrix_with, thread_count};

use lu_component::{Component, Op};
use std::marker::Model;

/// The most threads that a matrix has.
pub const MOST_THREADS: usize = 8;

/// The most calls that one thread makes, and the most of a setup.
pub const MOST_CALLS_OF_THREAD: usize = 8;

/// The most calls that a matrix has in all.
pub const MOST_CALLS: usize = 16;

/// The arguments of a call, in order.
#[derive(Debug, Drop)]
pub struct Arguments {
    numbers: Vec<u32>,
}

impl Model for Arguments {
    ghost use Rattle.std.specs.Prelude.{ℕ, List};

    ghost Value = { List ℕ };

    ghost view = { λ a. a.numbers.items };
}

impl Arguments {
    /// These arguments.
    pub fn new(numbers: Vec<u32>) -> Arguments
        ensures { result ≡ numbers.items }
    {
        Arguments { numbers }
    }

    /// The arguments, in order.
    pub fn as_slice(&self) -> &[u32]
        ensures { result.now ≡ self.now }
    {
        &self.numbers
    }
}

/// A call: the number of the operation in its component, from 0, and the arguments.
#[derive(Debug, Drop)]
pub struct Call {
    pub op: u8,
    pub args: Arguments,
}

impl Call {
    fn is_among(&self, operations: &[Op]) -> bool
        ensures { IsTrue result ↔ IsCallAmong operations.now self.now }
    {
        match operations.get(usize::from(self.op)) {
            None => false,
            Some(op) => self.args.as_slice().len() == usize::from(op.args),
        }
    }
}

/// The calls of one thread, in order.
#[derive(Debug, Drop)]
pub struct Calls {
    calls: Vec<Call>,
}

impl Model for Calls {
    ghost use Rattle.std.specs.Prelude.{List};
    ghost use Rattle.lu_test.specs.declared.matrix.Call.{Call as ACall};

    ghost Value = { List ACall };

    ghost view = { λ c. c.calls.items };
}

impl Calls {
    /// These calls.
    pub fn new(calls: Vec<Call>) -> Calls
        ensures { result ≡ calls.items }
    {
        Calls { calls }
    }

    /// The calls, in order.
    pub fn as_slice(&self) -> &[Call]
        ensures { result.now ≡ self.now }
    {
        &self.calls
    }

    /// Takes call number `k`, from 0, away. Asks for a call that is there.
    pub fn remove(&mut self, k: usize)
        requires { k < length self.old }
        ensures { self.new ≡ remove self.old k }
    {
        self.calls.remove(k);
    }

    fn are_among(&self, operations: &[Op]) -> bool
        ensures { IsTrue result ↔ All (IsCallAmong operations.now) self.now }
    {
        self.calls.iter().all(|call| call.is_among(operations))
    }
}

fn all_are_among(threads: &[Calls], operations: &[Op]) -> bool
    ensures { IsTrue result ↔ All (λ calls. All (IsCallAmong operations.now) calls) threads.now }
{
    threads.iter().all(|calls| calls.are_among(operations))
}

/// Whether the component has the operation of each call, with as many arguments.
fn are_of(setup: &Calls, threads: &[Calls], component: &Component) -> bool
    ensures of { IsTrue result ↔ IsOf (matrix_with setup.now threads.now) component.now }
    ensures sound { IsComponent component.now }
{
    let operations = component.operations();
    setup.are_among(operations) && all_are_among(threads, operations)
}

/// A matrix: the calls of a setup, which are made before the start, and for each thread the calls
/// that it makes. 1 to 8 threads of at most 8 calls, 16 calls in all, at most 8 more of the setup,
/// and at most 4 arguments of a call.
///
/// It is always one that some text gives: there is a component that has the operation of each call,
/// with as many arguments.
#[derive(Debug, Drop)]
pub struct Matrix {
    setup: Calls,
    threads: Vec<Calls>,
}

impl Model for Matrix {
    ghost use Rattle.lu_test.specs.Matrix.{IsMatrix, Matrix as AMatrix};

    ghost Value = { AMatrix };

    ghost view = { λ m. record { setup = m.setup; threads = m.threads.items } };

    ghost invariant = { λ m. IsMatrix (record { setup = m.setup; threads = m.threads.items }) };
}

impl Matrix {
    /// The matrix of this setup and of these threads' calls, where it is one of the component: that
    /// has the operation of each call, with as many arguments. Asks for the limits of each matrix:
    /// 1 to 8 threads of at most 8 calls, 16 calls in all, at most 8 of the setup, and at most 4
    /// arguments of a call.
    pub fn new(component: &Component, setup: Calls, threads: Vec<Calls>) -> Option<Matrix>
        requires some { 1 ≤ length threads.items }
        requires limits { AreThreads threads.items }
        requires before { IsSetup setup }
        ensures calls { IfSome result (λ matrix. matrix ≡ matrix_with setup threads.items) }
        ensures of { IsSome result ↔ IsOf (matrix_with setup threads.items) component.now }
    {
        if !are_of(&setup, &threads, component) {
            return None;
        }
        Some(Matrix::of_calls(setup, threads))
    }

    /// The matrix of these calls, which are asked to be a matrix of some component.
    pub(crate) fn of_calls(setup: Calls, threads: Vec<Calls>) -> Matrix
        requires { IsMatrix (matrix_with setup threads.items) }
        ensures { result ≡ matrix_with setup threads.items }
    {
        Matrix { setup, threads }
    }

    /// The calls that are made before the start.
    pub fn setup(&self) -> &Calls
        ensures calls { result.now ≡ self.now.setup }
        ensures sound { IsMatrix self.now }
    {
        &self.setup
    }

    /// The number of threads, 1 to 8.
    pub fn threads(&self) -> u8
        ensures threads { result ≡ thread_count self.now }
        ensures sound { IsMatrix self.now }
    {
        self.threads.len() as u8
    }

    /// The calls of each thread.
    pub fn as_slice(&self) -> &[Calls]
        ensures calls { result.now ≡ self.now.threads }
        ensures sound { IsMatrix self.now }
    {
        self.threads.as_slice()
    }

    /// The number of calls of thread `t`: 0 where there is no such thread.
    pub fn calls(&self, t: u8) -> u8
        ensures { result ≡ length (calls_of self.now t) }
    {
        match self.threads.get(usize::from(t)) {
            None => 0,
            Some(calls) => calls.as_slice().len() as u8,
        }
    }

    /// Call number `k` of thread `t`, both from 0. Asks for a call that is there.
    pub fn call(&self, t: u8, k: u8) -> &Call
        requires { k < length (calls_of self.now t) }
        ensures { slice_get (calls_of self.now t) k ≡ Some result.now }
    {
        &self.threads[usize::from(t)].as_slice()[usize::from(k)]
    }

    /// Whether this is a matrix of the component: it has the operation of each call, with as many
    /// arguments.
    pub fn of(&self, component: &Component) -> bool
        ensures { IsTrue result ↔ IsOf self.now component.now }
    {
        are_of(self.setup(), self.as_slice(), component)
    }
}
