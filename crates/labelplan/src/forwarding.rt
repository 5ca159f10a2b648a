// Asks the store that each variant of an enum has in the same words.
macro_rules! in_each {
    ($value:expr, $kind:ident [$($variant:ident)+], $store:ident => $said:expr) => {
        match $value {
            $($kind::$variant($store) => $said,)+
        }
    };
}

pub(crate) use in_each;
