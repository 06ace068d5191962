//! The files of a task: fetched one after another, each read on the values of those before it.
//!
//! What a file means may rest on the files before it, so the files of a task are a plan (`specs/Stages.antt`), in which
//! each stage is made from the values of those before. `load` fetches and reads one file of a kind, and says what is
//! left of the shelf, and which file is the first that gives no value (`Follows` in `specs/Stops.antt`). `load_house`
//! reads the four files of a hotel. Files count from 1, in the order of the words that name them.
//!
//! The certificate of a problem, as `check` reads both.
//!
//! ```
//! let problem = load(alloc, shelf, &ProblemFile, 1, problem)?;
//! let certificate = load(alloc, shelf, &CertificateFile, 2, certificate)?;
//! ```
#![tactic(auto)]

mod cause;
mod files;
mod house;
mod stop;
mod unread;

pub use cause::{Cause, FileError};
pub use files::bookings::BookingsFile;
pub use files::certificate::CertificateFile;
pub use files::forecast::ForecastFile;
pub use files::hotel::HotelFile;
pub use files::journal::JournalFile;
pub use files::list::{Hotels, ListFile};
pub use files::problem::ProblemFile;
pub use files::scenarios::{ScenariosFile, WhatIfLists};
pub use files::script::{ScriptFile, Scripts};
pub use files::stays::StaysFile;
pub use files::{Kind, load};
pub use house::{HotelFiles, OpenHotel, load_house};
pub use stop::Stop;
pub use unread::Unread;
