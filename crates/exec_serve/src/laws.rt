//! How documents that come one after another are told apart.
ghost use Rattle.std.specs.Prelude.{◌≡◌, ℕ, List, ◌++◌, map, Bool, Option};
ghost use Rattle.std.specs.List.{All, flat_map};
ghost use Rattle.exec_serve.specs.LawWords.{BeginWithNoRequest, IsAsked};
ghost use Rattle.exec_serve.specs.Serving.{Exchange, IsCutOff, request_bytes};

/// Bytes say one list of documents at most, and what comes behind them. So a run is asked for no documents but those of its input.
pub fn requests_are_read_in_one_way()
    ensures { (some others : List Exchange) (rest left : List ℕ) → All IsAsked some → All IsAsked others →
        BeginWithNoRequest rest → BeginWithNoRequest left → flat_map request_bytes some ++ rest ≡ flat_map request_bytes others ++ left →
        (map (λ one. one.document) some ≡ map (λ one. one.document) others) × (rest ≡ left) }
{}

/// What a run takes behind its documents is no whole request, if it ends because it can't read the next one.
pub fn what_is_cut_off_is_no_request()
    ensures { (failed : Bool) (after : Option (List ℕ)) (taken : List ℕ) → IsCutOff failed after taken → BeginWithNoRequest taken }
{}
