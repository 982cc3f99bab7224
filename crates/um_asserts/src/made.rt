//! Texts and unit names for tests.

/// A `String` with this text; without memory the test fails.
#[macro_export]
macro_rules! text {
    ($rt:expr, $text:expr $(,)?) => {
        String::from_str($rt.alloc(), $text).expect($rt, "no memory")
    };
}

/// The unit name of this text; if it is none, or without memory, the test fails.
#[macro_export]
macro_rules! unit {
    ($rt:expr, $text:expr $(,)?) => {
        $crate::UnitName::parse($rt.alloc(), $text).expect($rt, "no unit")
    };
}
