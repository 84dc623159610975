// Plans, which say how many rounds a search has and how they are cut; the orders in which rounds take open nodes; and
// the limits of plans, rounds and workers.
ghost use Rattle.std.specs.Prelude.{◌≡◌, ◌<◌, ◌≤◌, ◌↔◌, IsSome, IfSome, MatchOption};
ghost use Rattle.shop_runs.specs.{Limits.IsPlanWithin, Orders.{order_word, IsNoOrderWord}};
ghost use Rattle.shop_runs.specs.declared.plans.TheConstants.{MAX_WORKERS};

/// The most rounds that a plan may have.
pub const MAX_ROUNDS: u64 = 100_000;

/// The largest budget: the most nodes that the search of one piece may take.
pub const MAX_BUDGET: u64 = 10_000_000;

/// The most nodes that a piece may hold.
pub const MAX_PIECE: usize = 1_000;

/// The most pieces that a round may have.
pub const MAX_PIECES: usize = 256;

/// The most workers that may search in parallel.
pub const MAX_WORKERS: usize = 64;

/// The order in which a round takes the open nodes. `Kept` keeps the order of the standing's list. `Bound` takes the
/// nodes by lower bound, least first, and leaves ties in the order of that list.
#[derive(Clone, Copy, Debug, PartialEq, Eq)]
pub enum Order {
    Kept,
    Bound,
}

/// All orders.
pub const ORDERS: [Order; 2] = [Order::Kept, Order::Bound];

/// The words of `ORDERS`, in their order.
pub static ORDER_WORDS: [&str; 2] = ["kept", "bound"];

impl Order {
    /// Returns the word for the order on a command line.
    pub fn word(self) -> &'static str
        ensures { result.now ≡ order_word self }
    {
        match self {
            Order::Kept => ORDER_WORDS[0],
            Order::Bound => ORDER_WORDS[1],
        }
    }

    /// Finds the order whose word is `word`; `None` if there is none.
    pub fn of_word(word: &str) -> Option<Order>
        ensures { MatchOption result (IsNoOrderWord word.now) (λ order. order_word order ≡ word.now) }
    {
        for order in ORDERS {
            if order.word() == word {
                return Some(order);
            }
        }
        None
    }
}

/// How a search goes: its rounds (0 to 100,000), the budget of each piece (1 to 10,000,000 nodes), the nodes in a piece
/// (1 to 1,000), and the order in which a round takes the open nodes.
#[derive(Clone, Copy)]
pub struct Plan {
    pub rounds: u64,
    pub budget: u64,
    pub piece: usize,
    pub order: Order,
    pub ghost within: { IsPlanWithin rounds budget piece },
}

impl Plan {
    ghost use Rattle.shop_runs.specs.{Plans.IsPlanMadeOf, declared.plans.Order.TheVariants.Kept};

    /// Makes a plan, or returns `None` if `rounds`, `budget` or `piece` is outside its limits.
    pub fn ordered(rounds: u64, budget: u64, piece: usize, order: Order) -> Option<Plan>
        ensures within { IsPlanWithin rounds budget piece ↔ IsSome result }
        ensures plan { IfSome result (λ p. IsPlanMadeOf rounds budget piece order p) }
    {
        if rounds <= MAX_ROUNDS
            && 1 <= budget
            && budget <= MAX_BUDGET
            && 1 <= piece
            && piece <= MAX_PIECE
        {
            Some(Plan {
                rounds,
                budget,
                piece,
                order,
            })
        } else {
            None
        }
    }

    /// Makes a plan of the order `Kept`, or returns `None` if `rounds`, `budget` or `piece` is outside its limits.
    pub fn new(rounds: u64, budget: u64, piece: usize) -> Option<Plan>
        ensures within { IsPlanWithin rounds budget piece ↔ IsSome result }
        ensures plan { IfSome result (λ p. IsPlanMadeOf rounds budget piece Kept p) }
    {
        Plan::ordered(rounds, budget, piece, Order::Kept)
    }
}

/// The number of workers that search in parallel: 1 to 64.
#[derive(Clone, Copy)]
pub struct Workers {
    pub count: usize,
    pub ghost few: { (0 < count) × (count ≤ MAX_WORKERS) },
}

impl Workers {
    /// Returns `count` as a number of workers, or `None` if it isn't 1 to 64.
    pub fn new(count: usize) -> Option<Workers>
        ensures within { IsSome result ↔ ((0 < count) × (count ≤ MAX_WORKERS)) }
        ensures keeps { IfSome result (λ workers. workers.count ≡ count) }
    {
        if count == 0 || count > MAX_WORKERS {
            return None;
        }
        Some(Workers { count })
    }
}
