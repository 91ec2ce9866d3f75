//! What a browser's requests are answered with, and one browser's connection, over HTTP/1.1.
//!
//! There are a page, what can be looked at, and lines that are answered:
//!
//! | Method | Target | Answer |
//! |---|---|---|
//! | GET | `/` | the page |
//! | GET | `/state` | the state |
//! | GET | `/list?NAME` | the list of this name, or 404 |
//! | GET | `/flight?NAME` | the flight of this name, or 404 |
//! | GET | `/since?N` | what came of the calls behind position N, or 404 |
//! | GET | `/metrics` | metrics of the server |
//! | POST | `/lines` | the replies to the lines of the body |
//! | POST | `/try` | what would come of the lines of the body, of which nothing stays; or 413 where they are too many |
//!
//! The page, the state, the metrics and what is sent have no query: what stands behind a `?` there is passed over. A name is
//! taken as it stands, with nothing decoded. What a request can't have is refused: 421 where it goes to another host, 404
//! where nothing is there, 405 where it is there by another method, 403 where a page of another origin sends lines. What is
//! too large, or no request, the connection refuses before it is looked at here: with 413, 414, 431 or 400.
#![tactic(auto)]

mod backend;
mod browsing;
mod hosts;
mod laws;
mod route;
mod sending;
mod site;

pub use backend::Backend;
pub use browsing::browse;
pub use hosts::Hosts;
pub use laws::only_the_page_sends_lines;
pub use route::{Route, route_of};
pub use site::Site;
