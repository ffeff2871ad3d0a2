//! Printing of replies.

use std::alloc::AllocError;
use std::fmt::Write;
use tq_core::Reply;

fn print_order(order: &[(u32, u32)], out: &mut String) -> Result<(), AllocError> {
    out.push_str("order")?;
    for (piece, worker) in order {
        write!(out, " ({piece},{worker})")?;
    }
    out.push('\n')
}

fn print_reply(reply: &Reply<u32>, out: &mut String) -> Result<(), AllocError> {
    match reply {
        Reply::Done => out.push_str("done\n"),
        Reply::Length(length) => writeln!(out, "length {length}"),
        Reply::Answer(count) => writeln!(out, "answer {count}"),
        Reply::TooNew { seen } => writeln!(out, "too new {seen}"),
        Reply::Piece(Some(piece)) => writeln!(out, "piece {piece}"),
        Reply::Piece(None) => out.push_str("piece none\n"),
        Reply::Order(order) => print_order(order.get(), out),
        Reply::Refused => out.push_str("refused\n"),
    }
}

/// Prints a line for each reply.
pub(crate) fn print_replies(replies: &[Reply<u32>], out: &mut String) -> Result<(), AllocError> {
    for reply in replies {
        print_reply(reply, out)?;
    }
    Ok(())
}
