//! Certificates from the ends of runs.

ghost use Rattle.std.specs.Prelude.{◌≡◌, [], ◌∷◌, length, IfOk, IfSome, MatchResult};
ghost use Rattle.mpc_rows.specs.LawRows.{broken_row};
ghost use Rattle.mpc_rows.specs.RunWidth.{RunFits};
ghost use Rattle.mpc_simplex.specs.Answer.{IfWide};
ghost use Rattle.mpc_beginnings.specs.Beginnings.{lengthened};
ghost use Rattle.mpc_beginnings.specs.Open.{IsOpenFor};
ghost use Rattle.mpc_tree.specs.Ends.{IsEndOf};
ghost use Rattle.mpc_tree.specs.LeafCerts.{nonzero_from, IsCertOf};

use mpc_frac::NoMemory;
use mpc_linear::RowInt;
use mpc_rows::{Cert, Multipliers, System};
use mpc_scaled::WholeSystem;
use mpc_simplex::{Beginning, Broken, Decision, SimplexError, Workspace, decide};
use std::alloc::Global;

/// What the run of a system ends with.
#[derive(Drop)]
pub enum End {
    /// A point, and the run itself, where it is kept.
    Point(Option<Beginning>),
    /// No point, as this certificate shows.
    Refuted(Cert),
}

/// How many of the multipliers aren't 0.
fn nonzero_count(multipliers: &Multipliers) -> usize
    ensures { result ≡ length (nonzero_from 1 multipliers.now) }
{
    let mut count = 0;
    for index in 0..multipliers.len() {
        if !multipliers.at(index).is_zero() {
            count += 1;
        }
    }
    count
}

/// The multipliers that aren't 0, with the positions of their rows. A large tree has many
/// certificates, so each takes room for as many pairs as it has.
fn cert_of(alloc: Global, multipliers: &Multipliers) -> Result<Cert, NoMemory>
    ensures { IfOk result (λ cert. cert ≡ nonzero_from 1 multipliers.now) }
{
    let mut cert = Cert::with_capacity(alloc, nonzero_count(multipliers))?;
    for index in 0..multipliers.len() {
        let multiplier = multipliers.at(index);
        if !multiplier.is_zero() {
            cert.push((index as u64 + 1, *multiplier))?;
        }
    }
    Ok(cert)
}

/// What the run of the system ends with. It isn't kept.
pub fn plain_end(alloc: Global, system: &System) -> Result<End, SimplexError>
    ensures end { IfOk result (IsEndOf system.now) }
    ensures wide { MatchResult result (λ _. RunFits system.now) (λ e. IfWide e (¬ RunFits system.now)) }
{
    match decide(alloc, system) {
        Ok(Decision::Point(_)) => Ok(End::Point(None)),
        Ok(Decision::Refuted(multipliers)) => match cert_of(alloc, &multipliers) {
            Ok(cert) => Ok(End::Refuted(cert)),
            Err(NoMemory) => Err(SimplexError::NoMemory),
        },
        Err(error) => Err(error),
    }
}

/// What the kept run, with the row where this one fails behind it, ends with. Nothing where whole
/// numbers don't serve for it.
pub fn broken_end(
    alloc: Global,
    work: &mut Workspace,
    run: &Beginning,
    row: &RowInt,
) -> Result<Option<End>, NoMemory>
    requires width { length row.now.a ≡ run.now.width }
    requires open { IsOpenFor run.now work.old }
    ensures open { IsOpenFor run.now work.new }
    ensures end { IfOk result (λ o. IfSome o (IsEndOf (lengthened run.now (broken_row row.now ∷ [])))) }
    ensures fits { IfOk result (λ o. IfSome o (λ _. RunFits (lengthened run.now (broken_row row.now ∷ [])))) }
{
    match run.breaks(alloc, work, row)? {
        Some(Broken::Point(longer)) => Ok(Some(End::Point(Some(longer)))),
        Some(Broken::Refuted(multipliers)) => {
            Ok(Some(End::Refuted(cert_of(alloc, &multipliers)?)))
        }
        None => Ok(None),
    }
}

/// The certificate that the system of the kept run has no point with these rows behind its own. Nothing
/// where it has one, or whole numbers don't serve for it.
pub fn refuted_cert(
    alloc: Global,
    work: &mut Workspace,
    run: &Beginning,
    rows: &WholeSystem,
) -> Result<Option<Cert>, NoMemory>
    requires width { rows.now.width ≡ run.now.width }
    requires open { IsOpenFor run.now work.old }
    ensures cert { IfOk result (λ o. IfSome o (IsCertOf (lengthened run.now rows.now.rows))) }
    ensures fits { IfOk result (λ o. IfSome o (λ _. RunFits (lengthened run.now rows.now.rows))) }
{
    match run.refute(alloc, work, rows)? {
        Some(multipliers) => Ok(Some(cert_of(alloc, &multipliers)?)),
        None => Ok(None),
    }
}
