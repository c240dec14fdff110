//! Tests of the calls that the program consists of, where no run of it shows the results. A check
//! that doesn't hold ends with its name, which the failing test shows. An assertion that shows its
//! values would cost more to prove.
#![tactic(auto)]

/// Ends a check that doesn't hold with its name.
#[cfg(test)]
macro_rules! holds {
    ($holds:expr, $name:literal) => {
        if !$holds {
            return Err(concat!("wrong: ", $name));
        }
    };
}

/// Ok, or the name of the first check that doesn't hold.
#[cfg(test)]
type Checked = Result<(), &'static str>;

#[cfg(test)]
mod exit_errors;
#[cfg(test)]
mod reading;
#[cfg(test)]
mod serving;
