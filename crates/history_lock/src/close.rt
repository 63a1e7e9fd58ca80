//! How a lock is closed: all passes are joined into the first, and the machine comes back.
ghost use Rattle.std.specs.Prelude.{◌≡◌, ℕ, ◌+◌, ◌<◌, ◌≤◌, ◌^◌, true, false, List, [], ◌∷◌, length, slice_get, Some, All, vec_len};
ghost use mathlib.Core.Option.{some};
ghost use lib.ListN.{get_elem?};
ghost use Rattle.history_lock.specs.declared.view.Part.{Part};
ghost use Rattle.history_lock.specs.History.{calls_by};
ghost use Rattle.history_lock.specs.Turns.{parts_of, Sees};

use crate::lock::TurnLock;
use crate::machine::Machine;
use crate::moves::load;
use crate::pass::Pass;
use crate::plays::{Glue, Shadow};
use crate::rule::{Board, Place, Top};

impl<M: Machine> TurnLock<M> {
    ghost use Rattle.history_lock.specs.Lock.{base_of, clients_of, known, IsPassOf};

    /// Joins all passes into the first, one by one, and gives the machine back. It takes all passes of
    /// this lock, in order of clients, and can't be refused.
    ///
    /// In the history for which the machine stands, the calls of each client are just those that its
    /// pass had made, each once and in order. The pass that comes back is that of client 0, which has
    /// seen the whole history. It is spent: it's a pass of no lock any more.
    pub fn close(self, passes: Vec<Pass<M>>) -> (M, Pass<M>)
        requires one_each { vec_len passes ≡ clients_of self }
        requires passes { (i : ℕ) (p : _) → slice_get passes.items i ≡ Some p → IsPassOf M.base M.stands self p × ((known p).own.client ≡ i) }

        ensures base { M.base result.0 ≡ base_of M.base self }
        ensures seen { ((known result.1).own.client ≡ 0) × ((known result.1).own.seen ≡ M.list result.0) }
        ensures each { (i : ℕ) (p : _) → slice_get passes.items i ≡ Some p → Sees M.call_of M.client_of (M.list result.0) (known p).own }
        ensures no_others { All (λ entry. M.client_of (M.call_of entry) < clients_of self) (M.list result.0) }
    {
        let TurnLock { table, sleepers: _ } = self;
        let Joined {
            client,
            made,
            mut seat,
        } = join_all(&table.shared, passes);
        let seen = table.shared.split_seat::<Shadow>(&mut seat);
        let machine = finish(table, seat);
        (
            machine,
            Pass {
                client,
                made,
                seat: seen,
            },
        )
    }
}

// Takes the first pass out.
fn first_of<M: Machine>(passes: &mut Vec<Pass<M>>) -> Pass<M>
    requires { 0 < vec_len passes.old }
    ensures { passes.old.items ≡ result ∷ passes.new.items }
{
    passes.remove(0)
}

// The place of a pass.
fn seat_of<M: Machine>(pass: Pass<M>) -> Place<M>
    ensures same { result ≡ pass.seat }
    ensures rests { (result.me.1 ≡ []) × (result.me.0.holds ≡ false) × (result.me.0.kept ≡ []) }
{
    let Pass {
        client: _,
        made: _,
        seat,
    } = pass;
    seat
}

// Joins each pass into this one, which keeps what they had seen and made.
fn gather<M: Machine>(top: &Top<M>, seat: &mut Place<M>, passes: Vec<Pass<M>>)
    requires table { (seat.old.table_id ≡ top.now.table_id) × (top.now.table_id.words ≡ 2) }
    requires rests { (seat.old.me.1 ≡ []) × (seat.old.me.0.live ≡ true) × (seat.old.me.0.holds ≡ false) }
    requires passes { (i : ℕ) (p : _) → slice_get passes.items i ≡ Some p → (p.seat.table_id ≡ top.now.table_id) × (p.seat.me.0.live ≡ true) }
    ensures same { (seat.new.table_id ≡ seat.old.table_id) × (seat.new.id ≡ seat.old.id) × (seat.new.me.1 ≡ []) }
    ensures view { seat.new.me.0 ≡ record seat.old.me.0 { kept = seat.new.me.0.kept } }
    ensures kept { (i : ℕ) (p : _) → slice_get passes.items i ≡ Some p → (k : ℕ) × (get_elem? seat.new.me.0.kept k ≡ some p.seat.me.0.own) }
{
    let mut passes = passes;
    while let Some(pass) = passes.pop() {
        top.join_seat::<Glue>(seat, seat_of(pass));
    }
    passes.destroy_empty();
}

// All passes in one, which has seen the whole history.
struct Joined<M: Machine> {
    client: u32,
    made: u32,
    seat: Place<M>,
}

// Joins all passes into the first, and loads the count.
fn join_all<M: Machine>(top: &Top<M>, passes: Vec<Pass<M>>) -> Joined<M>
    requires table { top.now.table_id.words ≡ 2 }
    requires one_each { (vec_len passes ≡ top.now.key.clients) × (1 ≤ top.now.key.clients) }
    requires passes { (i : ℕ) (p : _) → slice_get passes.items i ≡ Some p → (p.seat.table_id ≡ top.now.table_id) × (p.seat.me.0.live ≡ true) × (p.seat.me.0.own.client ≡ i) }
    ensures place { (result.seat.table_id ≡ top.now.table_id) × (result.seat.me.1 ≡ []) }
    ensures rests { (result.seat.me.0.live ≡ true) × (result.seat.me.0.holds ≡ false) }
    ensures numbers { (result.client ≡ result.seat.me.0.own.client) × (result.client ≡ 0) × (result.made ≡ length result.seat.me.0.own.mine) × (result.made < 2 ^ 31) }
    ensures all { (client : ℕ) → client < top.now.key.clients → (k : ℕ) × (p : Part M.Entry M.Call) × (get_elem? (parts_of result.seat.me.0) k ≡ some p) × (p.client ≡ client) }
    ensures made { (k : ℕ) (p : Part M.Entry M.Call) → get_elem? (parts_of result.seat.me.0) k ≡ some p → p.mine ≡ calls_by M.call_of M.client_of p.client result.seat.me.0.own.seen }
    ensures each { (i : ℕ) (p : _) → slice_get passes.items i ≡ Some p → Sees M.call_of M.client_of result.seat.me.0.own.seen p.seat.me.0.own }
{
    let mut passes = passes;
    let Pass {
        client,
        made,
        mut seat,
    } = first_of(&mut passes);
    gather(top, &mut seat, passes);
    load(top, &mut seat);
    Joined { client, made, seat }
}

// Takes the machine out of the table, with the pass that has the parts of all clients.
fn finish<M: Machine>(table: Board<M>, seat: Place<M>) -> M
    requires table { (seat.table_id ≡ table.shared.table_id) × (table.shared.table_id.slots ≡ 1) }
    requires rests { (seat.me.0.live ≡ true) × (seat.me.0.holds ≡ false) }
    requires all { (client : ℕ) → client < table.shared.key.clients → (k : ℕ) × (p : Part M.Entry M.Call) × (get_elem? (parts_of seat.me.0) k ≡ some p) × (p.client ≡ client) }
    requires made { (k : ℕ) (p : Part M.Entry M.Call) → get_elem? (parts_of seat.me.0) k ≡ some p → p.mine ≡ calls_by M.call_of M.client_of p.client seat.me.0.own.seen }
    ensures base { M.base result ≡ M.base table.shared.key.first.value }
    ensures seen { M.list result ≡ seat.me.0.own.seen }
    ensures no_others { All (λ entry. M.client_of (M.call_of entry) < table.shared.key.clients) (M.list result) }
{
    let mut closed = table.close_with(seat);
    let slot = closed.take(0);
    closed.free();
    let Some(machine) = slot else { unreachable!() };
    machine
}
