#![tactic(auto)]
//! All clients of a served run: each in a worker of its own, beside one that enforces the limit, over
//! one manager of soft memory.
//!
//! Promises: the replies are those to the requests in their order, for every number of clients and
//! whatever the workers met of each other. Each client's tally is that of its own requests. The
//! manager's book is legal, its Grants are those that the clients count, and each ended exactly once.
//!
//! One allocation is cut into a place for each reply; the place of each request is dealt to the worker
//! of its client and filled there, and last all places are joined (`dealing.rt`). Which place is whose
//! is a recursion over the requests (`specs/Dealing.antt`). Nothing may fail while places are out, so
//! each worker notes its own failure. What a worker ended with is taken in by rising client
//! (`taking.rt`): its pass is drained, its share merged, its tally kept. At the end every client is
//! removed, from 1 to the greatest that a Grant names (`ending.rt`). `serve` picks what its manager is
//! made of (its queue, its ledgers, what is fixed), and all below it is generic in these.

mod dealing;
mod ending;
mod laws;
mod served;
mod serving;
mod taking;
mod task;
mod worker;
mod workers;

pub use drawn_workload::{Generated, gen_line, generate};
pub use laws::law_each_grant_ends;
pub use request_text::{Request, RequestFault, Requests, read_requests};
pub use serve_session::{ServedClient, ServedClients};
pub use serve_texts::{Replies, ServeCfg, Tally};
pub use served::{Served, report_text};
pub use serving::serve;
