//! What was read last, and so what may stand next.

ghost use Rattle.std.specs.Prelude.{◌≡◌};
ghost use Rattle.fsa_model.specs.Script.{takes_version, takes_table, takes_pairs, takes_clients, takes_requests};
ghost use Rattle.script_read.specs.StageView.{stage_of};

/// What was read last.
#[derive(Clone, Copy)]
pub enum Stage {
    /// Nothing yet.
    Nothing,
    /// The first line.
    Begun,
    /// `table pairs`, or a pair.
    Pairs,
    /// `table default`.
    Table,
    /// A client.
    Clients,
    /// A request.
    Requests,
}

impl Stage {
    /// Whether the first line may stand next.
    pub fn takes_version(self) -> bool
        ensures { result ≡ takes_version (stage_of self) }
    {
        matches!(self, Stage::Nothing)
    }

    /// Whether a table may begin next.
    pub fn takes_table(self) -> bool
        ensures { result ≡ takes_table (stage_of self) }
    {
        matches!(self, Stage::Begun)
    }

    /// Whether a pair of the table may stand next.
    pub fn takes_pairs(self) -> bool
        ensures { result ≡ takes_pairs (stage_of self) }
    {
        matches!(self, Stage::Pairs)
    }

    /// Whether a client may stand next.
    pub fn takes_clients(self) -> bool
        ensures { result ≡ takes_clients (stage_of self) }
    {
        !matches!(self, Stage::Nothing | Stage::Requests)
    }

    /// Whether a request may stand next; it is so from the first client on.
    pub fn takes_requests(self) -> bool
        ensures { result ≡ takes_requests (stage_of self) }
    {
        matches!(self, Stage::Clients | Stage::Requests)
    }
}
