// What is done for one type, written once for all five: the code for the type that a name names, and for the type that a
// resource or a write has.

/// A match over a [`TypeName`](crate::TypeName) whose arms differ only in the type. `mine in &whole` lends the field of the
/// type, and `AnyWrite of ..` wraps what is made in the variant of the type.
///
/// - `for_type!(kind, held in &self => held.changes())`
/// - `for_type!(kind, talk in &mut self, held in &catalogues => talk.tidy(alloc, held))`
/// - `for_type!(kind, AnyWrite of write_of(alloc, value)?)`
/// - `for_type!(kind, AnyWrite of writes in &batch => writes[index].try_copy(alloc)?)`
#[macro_export]
macro_rules! for_type {
    (@ $Type:ident $field:ident $mine:ident in &mut $whole:expr => $done:expr) => {{
        let $mine = &mut $whole.$field;
        $done
    }};
    (@ $Type:ident $field:ident $mine:ident in & $whole:expr => $done:expr) => {{
        let $mine = & $whole.$field;
        $done
    }};
    (@ $Type:ident $field:ident $mine:ident in &mut $whole:expr, $other:ident in & $beside:expr => $done:expr) => {{
        let $mine = &mut $whole.$field;
        let $other = & $beside.$field;
        $done
    }};
    (@ $Type:ident $field:ident $mine:ident in & $whole:expr, $other:ident in & $beside:expr => $done:expr) => {{
        let $mine = & $whole.$field;
        let $other = & $beside.$field;
        $done
    }};
    (@ $Type:ident $field:ident $Any:ident of $mine:ident in & $whole:expr => $done:expr) => {{
        let $mine = & $whole.$field;
        $Any::$Type($done)
    }};
    (@ $Type:ident $field:ident $Any:ident of $done:expr) => { $Any::$Type($done) };
    ($kind:expr, $($given:tt)*) => {
        match $kind {
            $crate::TypeName::Cluster => $crate::for_type!(@ Cluster cluster $($given)*),
            $crate::TypeName::Endpoint => $crate::for_type!(@ Endpoint endpoint $($given)*),
            $crate::TypeName::Listener => $crate::for_type!(@ Listener listener $($given)*),
            $crate::TypeName::Route => $crate::for_type!(@ Route route $($given)*),
            $crate::TypeName::Secret => $crate::for_type!(@ Secret secret $($given)*),
        }
    };
}

/// A match over an enum with a variant for each type, whose arms differ only in the type.
///
/// - `for_any!(write, AnyWrite(write) => write.name())`
/// - `for_any!(resource, AnyResource(resource) => AnyWrite of put_of(alloc, resource)?)`
/// - `for_any!(write, AnyWrite(write), writes in &mut self => add(writes, write))`
#[macro_export]
macro_rules! for_any {
    ($any:expr, $Any:ident($it:ident) => $Made:ident of $done:expr) => {
        match $any {
            $Any::Cluster($it) => $Made::Cluster($done),
            $Any::Endpoint($it) => $Made::Endpoint($done),
            $Any::Listener($it) => $Made::Listener($done),
            $Any::Route($it) => $Made::Route($done),
            $Any::Secret($it) => $Made::Secret($done),
        }
    };
    ($any:expr, $Any:ident($it:ident), $mine:ident in &mut $whole:expr => $done:expr) => {
        match $any {
            $Any::Cluster($it) => $crate::for_type!(@ Cluster cluster $mine in &mut $whole => $done),
            $Any::Endpoint($it) => $crate::for_type!(@ Endpoint endpoint $mine in &mut $whole => $done),
            $Any::Listener($it) => $crate::for_type!(@ Listener listener $mine in &mut $whole => $done),
            $Any::Route($it) => $crate::for_type!(@ Route route $mine in &mut $whole => $done),
            $Any::Secret($it) => $crate::for_type!(@ Secret secret $mine in &mut $whole => $done),
        }
    };
    ($any:expr, $Any:ident($it:ident) => $done:expr) => {
        match $any {
            $Any::Cluster($it) => $done,
            $Any::Endpoint($it) => $done,
            $Any::Listener($it) => $done,
            $Any::Route($it) => $done,
            $Any::Secret($it) => $done,
        }
    };
}
