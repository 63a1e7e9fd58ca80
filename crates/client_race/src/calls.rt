//! The calls that each client of a script is to make.
ghost use Rattle.std.specs.Prelude.{◌≡◌, ℕ, ◌-◌, ◌≤◌, ◌<◌, ◌^◌, ◌==◌, [], ◌∷◌, ◌++◌, filter, length, slice_get, Some, IfOk, vec_len};
ghost use Rattle.fsa_model.specs.Bounds.{most_client_lines, most_line_feeds};
ghost use Rattle.fsa_model.specs.Schedule.{leave_after};
ghost use Rattle.history_laws.specs.Races.{own_calls};
ghost use Rattle.script_read.specs.ScriptView.{contents};

use fsa_types::{Call, NoMemory, TryCopy, What};
use script_read::Script;
use std::alloc::Global;
use std::collections::VecDeque;

// Copies of the lines of this client.
fn own_lines(alloc: Global, lines: &[Call], client: u32) -> Result<VecDeque<Call>, NoMemory>
    ensures { IfOk result (λ own. own.items ≡ filter (λ call. call.client == client) lines.now) }
{
    let mut own = VecDeque::new(alloc);
    for call in lines {
        if call.client == client {
            own.push_back(call.copy(alloc)?)?;
        }
    }
    Ok(own)
}

// The client's lines, and then its leaving.
fn client_calls(alloc: Global, lines: &[Call], client: u32) -> Result<VecDeque<Call>, NoMemory>
    requires few { length lines.now < 2 ^ 32 - 1 }
    ensures { IfOk result (λ calls. calls.items ≡ filter (λ call. call.client == client) lines.now ++ leave_after lines.now client ∷ []) }
{
    let mut calls = own_lines(alloc, lines, client)?;
    let number = calls.len() as u32 + 1;
    calls.push_back(Call {
        client,
        number,
        what: What::Leave,
    })?;
    Ok(calls)
}

/// The calls of each client of a script, in order of clients: its lines and then its leaving.
pub(crate) fn all_client_calls(
    alloc: Global,
    script: &Script,
) -> Result<Vec<VecDeque<Call>>, NoMemory>
    requires lines { length (contents script.now).lines ≤ most_line_feeds }
    requires clients { length (contents script.now).setup.clients ≤ most_client_lines }
    ensures one_each { IfOk result (λ all. vec_len all ≡ length (contents script.now).setup.clients) }
    ensures calls { IfOk result (λ all. (i : ℕ) (calls : _) → slice_get all.items i ≡ Some calls → calls.items ≡ own_calls (contents script.now) i) }
{
    let mut all = Vec::new(alloc);
    for client in 0..script.clients().len() as u32 {
        all.push(client_calls(alloc, script.lines().as_slice(), client)?)?;
    }
    Ok(all)
}
