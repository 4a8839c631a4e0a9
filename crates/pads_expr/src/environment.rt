ghost use Rattle.std.specs.Prelude.{◌≡◌, ◌-◌, ◌<◌, ◌∷◌, ◌↔◌, [], drop, length, reverse, IfOk, IfNone, IfSome, IsTrue, OnOk, OnErr};

use crate::Lent;
use pads_value::{Memory, Val};
use std::alloc::Global;
use std::marker::Model;

/// A name with what it stands for.
pub type Binding = (u16, Val);

/// An environment: names with what they stand for. The latest binding of a name counts.
///
/// Contracts see it as the list of its pairs, the latest first, beside its room: the number of bindings
/// for which it holds memory from the start.
#[derive(Drop)]
pub struct Env {
    bindings: Vec<Binding>,
    room: u64,
}

impl Model for Env {
    ghost use Rattle.std.specs.Prelude.{◌≤◌, reverse, vec_capacity};
    ghost use Rattle.pads_expr.specs.Environment.{Environment, environment_code};

    ghost Value = { Environment };

    ghost coded = { environment_code };

    ghost view = { λ env. record { pairs = reverse env.bindings.items; room = env.room } };

    ghost invariant = { λ env. env.room ≤ vec_capacity env.bindings };
}

impl Env {
    /// The environment without bindings, with memory for `room` of them.
    pub fn new(alloc: Global, room: u64) -> Result<Env, Memory>
        ensures empty { IfOk result (λ env. env.pairs ≡ []) }
        ensures room { IfOk result (λ env. env.room ≡ room) }
    {
        Ok(Env {
            bindings: Vec::with_capacity(alloc, room as usize)?,
            room,
        })
    }

    /// How many bindings there are.
    pub fn len(&self) -> u64
        ensures length { result ≡ length self.now.pairs }
    {
        self.bindings.len() as u64
    }

    /// Whether there is no binding.
    pub fn is_empty(&self) -> bool
        ensures empty { IsTrue result ↔ (self.now.pairs ≡ []) }
    {
        self.bindings.is_empty()
    }

    /// How many bindings it takes without more memory.
    pub fn room(&self) -> u64
        ensures room { result ≡ self.now.room }
    {
        self.room
    }

    /// The bindings, the latest last.
    pub fn as_slice(&self) -> &[Binding]
        ensures pairs { reverse result.now ≡ self.now.pairs }
    {
        self.bindings.as_slice()
    }

    /// The bindings, the latest last, with their values lent.
    pub fn lend(&self, alloc: Global) -> Result<Vec<Lent<'_>>, Memory>
        ensures pairs { IfOk result (λ lent. reverse lent.items ≡ self.now.pairs) }
    {
        let mut lent = Vec::with_capacity(alloc, self.bindings.len())?;
        for (name, value) in &self.bindings {
            lent.push(Lent::new(*name, value))?;
        }
        Ok(lent)
    }

    /// Binds a name within the room.
    pub fn push(&mut self, name: u16, value: Val)
        requires { length self.old.pairs < self.old.room }
        ensures bound { self.new.pairs ≡ (name, value) ∷ self.old.pairs }
        ensures room { self.new.room ≡ self.old.room }
    {
        self.bindings.push((name, value)).unwrap();
    }

    /// Binds a name, whatever the room is. Without memory the environment stays as it was.
    pub fn bind(&mut self, name: u16, value: Val) -> Result<(), Memory>
        ensures bound { OnOk result (self.new.pairs ≡ (name, value) ∷ self.old.pairs) }
        ensures err { OnErr result (self.new.pairs ≡ self.old.pairs) }
        ensures room { self.new.room ≡ self.old.room }
    {
        self.bindings.push((name, value))?;
        Ok(())
    }

    /// Takes the latest binding back; `None` exactly where there is none.
    pub fn pop(&mut self) -> Option<Binding>
        ensures latest { IfSome result (λ binding. self.old.pairs ≡ binding ∷ self.new.pairs) }
        ensures empty { IfNone result (self.old.pairs ≡ []) }
        ensures nothing_left { IfNone result (self.new.pairs ≡ []) }
        ensures room { self.new.room ≡ self.old.room }
    {
        self.bindings.pop()
    }

    /// Takes back what was bound after the first `len` bindings.
    pub fn cut(&mut self, len: u64)
        ensures kept { self.new.pairs ≡ drop (length self.old.pairs - len) self.old.pairs }
        ensures room { self.new.room ≡ self.old.room }
    {
        self.bindings.truncate(len as usize);
    }
}
