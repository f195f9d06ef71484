//! Histories that are legal, and histories whose last event does not fit, written out.

mod explained;
mod histories;
mod legal;
mod misfits;
mod random;
mod reading;
mod reasons;
mod underused;
