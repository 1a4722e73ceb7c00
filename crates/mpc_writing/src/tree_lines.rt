//! The lines of a search tree, whose planes are named by their numbers. Its nodes are a list in preorder,
//! so nothing recurs on its depth.

ghost use Rattle.std.specs.Prelude.{◌≡◌, ◌++◌, [], List, map, All, OnOk, IfOk, length, take};
ghost use Rattle.std.specs.Fmt.{signed_decimal};
ghost use Rattle.std.specs.List.{flat_map};
ghost use Rattle.mpc_linear.specs.declared.integers.RowInt.{RowInt as Row};
ghost use Rattle.mpc_plant.specs.declared.plants.Plant.{Plant};
ghost use Rattle.mpc_words.specs.Words.{behind_blanks};
ghost use Rattle.mpc_grammar.specs.Lines.{pair_words, cert_line};
ghost use Rattle.mpc_writing.specs.Writing.{ended};
ghost use Rattle.mpc_writing.specs.Names.{AreNames};
ghost use Rattle.mpc_grammar.specs.WrittenFits.{IsPairFit, CertFits};
ghost use Rattle.mpc_writing.specs.PlaneNames.{plane_line, IsGoodPlane, IsGoodNode, ArePlanes, leaf_text, bare_leaf_text, IsNodeNumbered, AreNodesNumbered, IsTreeWritten};

use crate::names::Names;
use crate::words::{
    end_line, write_count, write_count_line, write_fraction, write_integer, write_piece,
};
use mpc_frac::{Frac, NoMemory};
use mpc_grammar::{one_integers, word_theorems};
use mpc_linear::RowInt;
use mpc_rows::{Cert, Certs, Node, Tree};
use std::alloc::Global;

/// Appends the integers, each behind a blank. Without memory some of them stand there.
fn write_integers(integers: &[i128], out: &mut Vec<u8>) -> Result<(), NoMemory>
    ensures text { OnOk result (out.new.items ≡ out.old.items
        ++ behind_blanks (map signed_decimal integers.now)) }
    ensures kept { take (length out.old.items) out.new.items ≡ out.old.items }
{
    for integer in integers {
        write_integer(*integer, out)?;
    }
    Ok(())
}

/// The line of a plane.
fn plane_line(alloc: Global, row: &RowInt) -> Result<Vec<u8>, NoMemory>
    ensures { IfOk result (λ text. text.items ≡ plane_line row.now) }
{
    let mut text = Vec::new(alloc);
    write_piece(b"plane", &mut text)?;
    write_integers(row.a.as_slice(), &mut text)?;
    write_integer(row.b, &mut text)?;
    Ok(text)
}

/// Appends a position and a multiplier, each behind a blank. Without memory some of it stands there.
fn write_pair(pair: &(u64, Frac), out: &mut Vec<u8>) -> Result<(), NoMemory>
    ensures text { OnOk result (out.new.items ≡ out.old.items ++ behind_blanks (pair_words pair.now)) }
    ensures fits { OnOk result (IsPairFit pair.now) }
    ensures kept { take (length out.old.items) out.new.items ≡ out.old.items }
{
    write_count(pair.0, out)?;
    write_fraction(&pair.1, out)
}

/// Appends the pairs of a certificate. Without memory some of them stand there.
fn write_pairs(cert: &Cert, out: &mut Vec<u8>) -> Result<(), NoMemory>
    ensures text { OnOk result (out.new.items ≡ out.old.items
        ++ behind_blanks (flat_map pair_words cert.now)) }
    ensures fits { OnOk result (CertFits cert.now) }
    ensures kept { take (length out.old.items) out.new.items ≡ out.old.items }
{
    for i in 0..cert.len() {
        write_pair(cert.at(i), out)?;
    }
    Ok(())
}

/// Appends the line of a certificate. Without memory some of it stands there.
fn write_cert(cert: &Cert, out: &mut Vec<u8>) -> Result<(), NoMemory>
    ensures text { OnOk result (out.new.items ≡ out.old.items ++ ended (cert_line cert.now)) }
    ensures fits { OnOk result (CertFits cert.now) }
    ensures kept { take (length out.old.items) out.new.items ≡ out.old.items }
{
    write_piece(b"cert", out)?;
    write_pairs(cert, out)?;
    end_line(out)
}

/// Appends the lines of a leaf with a law. Without memory some of them stand there.
fn write_leaf(law: u32, certs: &Certs, out: &mut Vec<u8>) -> Result<(), NoMemory>
    ensures text { OnOk result (out.new.items ≡ out.old.items ++ leaf_text law certs.now) }
    ensures fits { OnOk result (All CertFits certs.now) }
    ensures kept { take (length out.old.items) out.new.items ≡ out.old.items }
{
    write_count_line(b"leaf", law.into(), out)?;
    for i in 0..certs.len() {
        write_cert(certs.at(i), out)?;
    }
    Ok(())
}

/// Appends the lines of a leaf without a law. Without memory some of them stand there.
fn write_bare_leaf(cert: &Cert, out: &mut Vec<u8>) -> Result<(), NoMemory>
    ensures text { OnOk result (out.new.items ≡ out.old.items ++ bare_leaf_text cert.now) }
    ensures fits { OnOk result (CertFits cert.now) }
    ensures kept { take (length out.old.items) out.new.items ≡ out.old.items }
{
    write_piece(b"none\n", out)?;
    write_cert(cert, out)
}

/// Appends the line of a split, which names its plane. Without memory some of it stands there.
fn write_split(
    alloc: Global,
    row: &RowInt,
    names: &mut Names,
    out: &mut Vec<u8>,
) -> Result<(), NoMemory>
    ensures numbered { OnOk result ((plant : Plant) (planes : List Row) → IsGoodPlane plant row.now → ArePlanes plant (AreNames names.old) planes
        → IsNodeNumbered plant planes (Node.Split row.now) out.old.items out.new.items (AreNames names.new)) }
    ensures kept { take (length out.old.items) out.new.items ≡ out.old.items }
    ensures names_kept { take (length names.old.text.items) names.new.text.items ≡ names.old.text.items }
{
    one_integers();
    let text = plane_line(alloc, row)?;
    let number = names.number(text)?;
    write_count_line(b"split", number, out)
}

/// Appends the lines of a node. Without memory some of them stand there.
fn write_node(
    alloc: Global,
    node: &Node,
    names: &mut Names,
    out: &mut Vec<u8>,
) -> Result<(), NoMemory>
    ensures numbered { OnOk result ((plant : Plant) (planes : List Row) → IsGoodNode plant node.now → ArePlanes plant (AreNames names.old) planes
        → IsNodeNumbered plant planes node.now out.old.items out.new.items (AreNames names.new)) }
    ensures kept { take (length out.old.items) out.new.items ≡ out.old.items }
    ensures names_kept { take (length names.old.text.items) names.new.text.items ≡ names.old.text.items }
{
    match node {
        Node::Split(row) => write_split(alloc, row, names, out),
        Node::Law { law, certs } => write_leaf(*law, certs, out),
        Node::NoMove { cert } => write_bare_leaf(cert, out),
    }
}

/// Appends the lines of the nodes. Without memory some of them stand there.
fn write_nodes(
    alloc: Global,
    tree: &Tree,
    names: &mut Names,
    out: &mut Vec<u8>,
) -> Result<(), NoMemory>
    ensures numbered { OnOk result ((plant : Plant) → All (IsGoodNode plant) tree.now → ArePlanes plant (AreNames names.old) []
        → AreNodesNumbered plant tree.now out.old.items out.new.items (AreNames names.new)) }
    ensures kept { take (length out.old.items) out.new.items ≡ out.old.items }
    ensures names_kept { take (length names.old.text.items) names.new.text.items ≡ names.old.text.items }
{
    for k in 0..tree.len() {
        write_node(alloc, tree.at(k), names, out)?;
    }
    Ok(())
}

/// Appends the lines of the different planes, and those of the nodes that name them. Without memory some of
/// them stand there.
pub fn write_tree(alloc: Global, tree: &Tree, out: &mut Vec<u8>) -> Result<(), NoMemory>
    ensures written { OnOk result ((plant : Plant) → All (IsGoodNode plant) tree.now → IsTreeWritten plant tree.now out.old.items out.new.items) }
    ensures kept { take (length out.old.items) out.new.items ≡ out.old.items }
{
    word_theorems();
    let mut names = Names::new(alloc);
    let mut text = Vec::new(alloc);
    write_nodes(alloc, tree, &mut names, &mut text)?;
    write_count_line(b"planes", names.len() as u64, out)?;
    write_piece(names.text(), out)?;
    write_piece(b"tree\n", out)?;
    write_piece(text.as_slice(), out)
}
