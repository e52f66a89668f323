//! Clients: small functions, each a real use of the libraries, proved from their public contracts alone. Each needs a promise
//! that no library above needs, so a definition that loses what it says is told by a client that is no longer proved. They are
//! there to be proved and nobody calls them, so none is public.

#![tactic(auto)]

mod benches;
mod comparisons;
mod drafts;
mod sheets;
mod shows;
mod tables;
mod templates;
mod theorems;
mod watches;
