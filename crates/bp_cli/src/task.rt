//! What a plain line asks for.
use crate::Name;

/// What a plain line asks for, with the names of its files.
#[derive(Drop)]
pub enum Task<'a> {
    /// To check a certificate of a problem.
    Check {
        problem: Name<'a>,
        certificate: Name<'a>,
    },
    /// To solve a problem.
    Solve {
        problem: Name<'a>,
    },
    /// To quote a group of so many rooms from a night up to another.
    Group {
        problem: Name<'a>,
        from: u32,
        to: u32,
        rooms: u64,
    },
    /// To judge a journal of a problem's house.
    Judge {
        problem: Name<'a>,
        journal: Name<'a>,
    },
    /// To run the sessions of a script on a desk, with so many optimisers beside them.
    Desk {
        hotel: Name<'a>,
        stays: Name<'a>,
        forecast: Name<'a>,
        bookings: Name<'a>,
        script: Name<'a>,
        workers: u32,
    },
    /// To judge a journal of a desk.
    Replay {
        hotel: Name<'a>,
        stays: Name<'a>,
        forecast: Name<'a>,
        bookings: Name<'a>,
        journal: Name<'a>,
    },
    /// To report of a journal of a desk.
    Report {
        hotel: Name<'a>,
        stays: Name<'a>,
        forecast: Name<'a>,
        bookings: Name<'a>,
        journal: Name<'a>,
    },
    /// To make a house by a seed and book each of its stays.
    Demo {
        seed: u64,
        nights: u32,
        rooms: u64,
        stays: u32,
    },
    /// To solve a problem after each list of changes.
    Scenarios {
        problem: Name<'a>,
        changes: Name<'a>,
    },
    /// To print the bands and length-of-stay controls of a problem.
    Sheet {
        problem: Name<'a>,
    },
    /// To run the desks of a list of hotels, with so many optimisers beside the sessions of each.
    Portfolio {
        list: Name<'a>,
        workers: u32,
    },
}
