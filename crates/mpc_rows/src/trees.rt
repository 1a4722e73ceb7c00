//! Search trees over the states of a box, with a certificate of what is claimed at each leaf.

ghost use Rattle.std.specs.Prelude.{◌≡◌, ◌<◌, [], ◌∷◌, ◌++◌, ◌↔◌, Some, IsTrue, IfOk, IsOk, OnOk, OnErr, length, slice_get};
ghost use Rattle.mpc_rows.specs.Certificates.{IsCert};

use mpc_frac::{Frac, NoMemory};
use mpc_linear::{RowInt, Seq};
use std::alloc::Global;
use std::marker::Model;

/// Multipliers that refute a system of rows (Farkas 1902, Motzkin 1936): pairs of the position of a
/// row and its multiplier. The positions rise, from 1; no multiplier is 0, and rows without a pair
/// have the multiplier 0.
#[derive(Drop)]
pub struct Cert {
    items: Vec<(u64, Frac)>,
}

impl Model for Cert {
    ghost use Rattle.std.specs.Prelude.{ℕ, List};
    ghost use Rattle.std.specs.Coded.{coded_list, coded×, coded_ℕ};
    ghost use Rattle.mpc_exact.specs.Rational.{ℚ, coded_ℚ};
    ghost use Rattle.mpc_rows.specs.Certificates.{IsCert};

    ghost Value = { List (ℕ × ℚ) };

    ghost coded = { coded_list (coded× coded_ℕ coded_ℚ) };

    ghost view = { λ v. v.items.items };

    ghost invariant = { λ v. IsCert v.items.items };
}

impl Cert {
    /// The empty certificate, which takes no memory.
    pub fn new(alloc: Global) -> Self
        ensures { result ≡ [] }
    {
        Cert {
            items: Vec::new(alloc),
        }
    }

    /// The empty certificate, with room for so many pairs and no more.
    pub fn with_capacity(alloc: Global, count: usize) -> Result<Self, NoMemory>
        ensures empty { IfOk result (λ cert. cert ≡ []) }
        ensures none_needed { count ≡ 0 → IsOk result }
    {
        match Vec::with_capacity(alloc, count) {
            Ok(items) => Ok(Cert { items }),
            Err(_) => Err(NoMemory),
        }
    }

    /// How many pairs there are.
    pub fn len(&self) -> usize
        ensures { result ≡ length self.now }
    {
        self.items.len()
    }

    /// Whether there is no pair.
    pub fn is_empty(&self) -> bool
        ensures { IsTrue result ↔ (self.now ≡ []) }
    {
        self.items.is_empty()
    }

    /// The pair at the place, from 0.
    pub fn at(&self, place: usize) -> &(u64, Frac)
        requires { place < length self.now }
        ensures { slice_get self.now place ≡ Some result.now }
    {
        &self.items[place]
    }

    /// The pairs, in their order.
    pub fn as_slice(&self) -> &[(u64, Frac)]
        ensures value { result.now ≡ self.now }
        ensures rises { IsCert self.now }
    {
        self.items.as_slice()
    }

    /// Puts one pair behind the others. Without memory the certificate stays as it was.
    pub fn push(&mut self, item: (u64, Frac)) -> Result<(), NoMemory>
        requires { IsCert (self.old ++ item ∷ []) }
        ensures ok { OnOk result (self.new ≡ self.old ++ item ∷ []) }
        ensures err { OnErr result (self.new ≡ self.old) }
    {
        if self.items.push(item).is_err() {
            return Err(NoMemory);
        }
        Ok(())
    }
}

/// A list of certificates.
pub type Certs = Seq<Cert>;

/// A node of a search tree (Tøndel, Johansen and Bemporad, 2003).
#[derive(Drop)]
pub enum Node {
    /// A row that divides the node's cell: first the tree where the row holds, then the tree where it
    /// doesn't.
    Split(RowInt),
    /// A leaf where the law with this number, from 1, holds, with a certificate for each of its rows.
    Law { law: u32, certs: Certs },
    /// A leaf at whose states no unknowns satisfy all rows, with a certificate of that.
    NoMove { cert: Cert },
}

/// A search tree as the list of its nodes in preorder.
pub type Tree = Seq<Node>;
