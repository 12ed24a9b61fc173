ghost use Rattle.std.specs.Prelude.{◌∷◌, ◌++◌, [], All, IfSome, OnOk, codes};
ghost use Rattle.std.specs.List.{flat_map};
ghost use Rattle.cube_lex.specs.Written.{Spaces, Writes};
ghost use Rattle.cube_lex.specs.Written.{word_token, sign_token};
ghost use Rattle.model_text.specs.Spelled.{rank_spelled, next_rank_spelled, ranks_spelled, list_spelled};
ghost use Rattle.model_text.specs.Spelled.{totals_spelled, lag_spelled, position_spelled, next_position_spelled};
ghost use Rattle.model_text.specs.Spelled.{positions_spelled, order_spelled};
ghost use Rattle.model_text.specs.Writable.{IsNameText, IsWritableRank, IsWritableWord, IsWritableOrder};

use crate::order::{OrderLine, OrderWord};
use cube_lex::{Piece, Position, write_line, write_pieces};
use dim_name::Name;
use std::alloc::{AllocError, Global};

// Writes an element and its rank.
fn write_rank(alloc: Global, out: &mut Vec<u8>, rank: &(Name, u32)) -> Result<(), AllocError>
    requires { IsWritableRank rank.now }
    ensures { OnOk result (Spaces out.old.items out.new.items (rank_spelled rank.now)) }
{
    let (name, number) = rank;
    let tokens = [
        Piece::Quoted(name.shown()),
        Piece::Whole(u64::from(*number)),
    ];
    write_pieces(alloc, out, &tokens)
}

// Writes a further element and its rank.
fn write_next_rank(alloc: Global, out: &mut Vec<u8>, rank: &(Name, u32)) -> Result<(), AllocError>
    requires { IsWritableRank rank.now }
    ensures { OnOk result (Spaces out.old.items out.new.items (next_rank_spelled rank.now)) }
{
    write_pieces(alloc, out, &[Piece::Sign(b",")])?;
    write_rank(alloc, out, rank)
}

// Writes the ranks behind the first.
fn write_further_ranks(
    alloc: Global,
    out: &mut Vec<u8>,
    ranks: &[(Name, u32)],
) -> Result<(), AllocError>
    requires { All IsWritableRank ranks.now }
    ensures { OnOk result (Spaces out.old.items out.new.items (flat_map next_rank_spelled ranks.now)) }
{
    for rank in ranks {
        write_next_rank(alloc, out, rank)?;
    }
    Ok(())
}

// Writes the ranks of elements.
fn write_ranks(alloc: Global, out: &mut Vec<u8>, ranks: &[(Name, u32)]) -> Result<(), AllocError>
    requires { All IsWritableRank ranks.now }
    ensures { OnOk result (Spaces out.old.items out.new.items (ranks_spelled ranks.now)) }
{
    let [first, further @ ..] = ranks else {
        return Ok(());
    };
    write_rank(alloc, out, first)?;
    write_further_ranks(alloc, out, further)
}

// Writes the ranks of elements in parentheses.
fn write_list(alloc: Global, out: &mut Vec<u8>, ranks: &[(Name, u32)]) -> Result<(), AllocError>
    requires { All IsWritableRank ranks.now }
    ensures { OnOk result (Spaces out.old.items out.new.items (list_spelled ranks.now)) }
{
    write_pieces(alloc, out, &[Piece::Sign(b"(")])?;
    write_ranks(alloc, out, ranks)?;
    write_pieces(alloc, out, &[Piece::Sign(b")")])
}

// Writes a dimension and the ranks of its elements.
fn write_listed(
    alloc: Global,
    out: &mut Vec<u8>,
    name: &Name,
    ranks: &[(Name, u32)],
) -> Result<(), AllocError>
    requires { IsWritableWord (OrderWord.Ranks name.now ranks.now) }
    ensures { OnOk result (Spaces out.old.items out.new.items (position_spelled (OrderWord.Ranks name.now ranks.now))) }
{
    write_pieces(alloc, out, &[Piece::Quoted(name.shown())])?;
    write_list(alloc, out, ranks)
}

// Writes the ranks for leaf cells, `TOTALS` and those for consolidated cells.
fn write_lists(
    alloc: Global,
    out: &mut Vec<u8>,
    leaves: &[(Name, u32)],
    totals: &[(Name, u32)],
) -> Result<(), AllocError>
    requires leaves { All IsWritableRank leaves.now }
    requires totals { All IsWritableRank totals.now }
    ensures { OnOk result (Spaces out.old.items out.new.items
        (list_spelled leaves.now ++ word_token (codes "TOTALS") ∷ list_spelled totals.now)) }
{
    write_list(alloc, out, leaves)?;
    write_pieces(alloc, out, &[Piece::Word(b"TOTALS")])?;
    write_list(alloc, out, totals)
}

// Writes a dimension and the ranks of its elements, for leaf cells and for consolidated cells.
fn write_by_kind(
    alloc: Global,
    out: &mut Vec<u8>,
    name: &Name,
    leaves: &[(Name, u32)],
    totals: &[(Name, u32)],
) -> Result<(), AllocError>
    requires { IsWritableWord (OrderWord.RanksByKind name.now leaves.now totals.now) }
    ensures { OnOk result (Spaces out.old.items out.new.items
        (position_spelled (OrderWord.RanksByKind name.now leaves.now totals.now))) }
{
    write_pieces(alloc, out, &[Piece::Quoted(name.shown())])?;
    write_lists(alloc, out, leaves, totals)
}

// Writes `TOTALS`, where it stands behind `AUTO`.
fn write_totals(alloc: Global, out: &mut Vec<u8>, totals: bool) -> Result<(), AllocError>
    ensures { OnOk result (Spaces out.old.items out.new.items (totals_spelled totals)) }
{
    if totals {
        write_pieces(alloc, out, &[Piece::Word(b"TOTALS")])
    } else {
        Ok(())
    }
}

// Writes the name of the lag, where there is one.
fn write_lag(alloc: Global, out: &mut Vec<u8>, lag: &Option<Name>) -> Result<(), AllocError>
    requires { IfSome lag.now IsNameText }
    ensures { OnOk result (Spaces out.old.items out.new.items (lag_spelled lag.now)) }
{
    match lag {
        Some(name) => write_pieces(alloc, out, &[Piece::Quoted(name.shown())]),
        None => Ok(()),
    }
}

// Writes `AUTO` and what stands behind it.
fn write_auto(
    alloc: Global,
    out: &mut Vec<u8>,
    totals: bool,
    lag: &Option<Name>,
) -> Result<(), AllocError>
    requires { IsWritableWord (OrderWord.Auto totals lag.now) }
    ensures { OnOk result (Spaces out.old.items out.new.items (position_spelled (OrderWord.Auto totals lag.now))) }
{
    write_pieces(alloc, out, &[Piece::Word(b"AUTO")])?;
    write_totals(alloc, out, totals)?;
    write_lag(alloc, out, lag)
}

// Writes a word of an order line.
fn write_position(alloc: Global, out: &mut Vec<u8>, position: &OrderWord) -> Result<(), AllocError>
    requires { IsWritableWord position.now }
    ensures { OnOk result (Spaces out.old.items out.new.items (position_spelled position.now)) }
{
    match position {
        OrderWord::Constant(number) => {
            write_pieces(alloc, out, &[Piece::Whole(u64::from(*number))])
        }
        OrderWord::Index(name) => write_pieces(alloc, out, &[Piece::Quoted(name.shown())]),
        OrderWord::Ranks(name, ranks) => write_listed(alloc, out, name, ranks.as_slice()),
        OrderWord::RanksByKind(name, leaves, totals) => {
            write_by_kind(alloc, out, name, leaves.as_slice(), totals.as_slice())
        }
        OrderWord::Totals => write_pieces(alloc, out, &[Piece::Word(b"TOTALS")]),
        OrderWord::Auto { totals, lag } => write_auto(alloc, out, *totals, lag),
    }
}

// Writes a further position.
fn write_next_position(
    alloc: Global,
    out: &mut Vec<u8>,
    position: &OrderWord,
) -> Result<(), AllocError>
    requires { IsWritableWord position.now }
    ensures { OnOk result (Spaces out.old.items out.new.items (next_position_spelled position.now)) }
{
    write_pieces(alloc, out, &[Piece::Sign(b",")])?;
    write_position(alloc, out, position)
}

// Writes the positions behind the first.
fn write_further_positions(
    alloc: Global,
    out: &mut Vec<u8>,
    positions: &[OrderWord],
) -> Result<(), AllocError>
    requires { All IsWritableWord positions.now }
    ensures { OnOk result (Spaces out.old.items out.new.items (flat_map next_position_spelled positions.now)) }
{
    for position in positions {
        write_next_position(alloc, out, position)?;
    }
    Ok(())
}

// Writes the positions of an order line.
fn write_positions(
    alloc: Global,
    out: &mut Vec<u8>,
    positions: &[OrderWord],
) -> Result<(), AllocError>
    requires { All IsWritableWord positions.now }
    ensures { OnOk result (Spaces out.old.items out.new.items (positions_spelled positions.now)) }
{
    let [first, further @ ..] = positions else {
        return Ok(());
    };
    write_position(alloc, out, first)?;
    write_further_positions(alloc, out, further)
}

// Writes the positions behind `ORDER`, and `;`.
fn write_order_line(
    alloc: Global,
    out: &mut Vec<u8>,
    positions: &[OrderWord],
) -> Result<(), AllocError>
    requires { All IsWritableWord positions.now }
    ensures { OnOk result (Writes out.old.items out.new.items
        (word_token (codes "ORDER") ∷ (positions_spelled positions.now ++ sign_token (codes ";") ∷ []))) }
{
    write_pieces(alloc, out, &[Piece::Word(b"ORDER")])?;
    write_positions(alloc, out, positions)?;
    write_line(alloc, out, &[Piece::Sign(b";")])
}

/// Writes the order line of a cube, if there is one.
pub fn write_order(
    alloc: Global,
    out: &mut Vec<u8>,
    order: &Option<(Position, OrderLine)>,
) -> Result<(), AllocError>
    requires { IfSome order.now (λ o. IsWritableOrder o.1.words) }
    ensures { OnOk result (Writes out.old.items out.new.items (order_spelled order.now)) }
{
    match order {
        Some((_, order)) => write_order_line(alloc, out, order.words.as_slice()),
        None => Ok(()),
    }
}
