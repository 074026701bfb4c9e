// The two tables of a store, and what the list of a file's tables says of it.
use sqlite_trees::schema::Object;
use sqlite_trees::store::Shape;
use sqlite_value::keys::Order;
use sqlite_value::order::is_same;
use sqlite_value::row::Row;
use sqlite_value::value::ValueRef;

/// The tree of the next free replica number.
pub(crate) const NUMBERS: u32 = 0;

/// The tree of the writes.
pub(crate) const WRITES: u32 = 1;

const NUMBERS_NAME: &str = "replica_numbers";

// What a row that lists the table of numbers begins with: its type, name and table.
const NUMBERS_ROW: &str = "tablereplica_numbersreplica_numbers";

const NUMBERS_SQL: &str =
    "CREATE TABLE replica_numbers (format INTEGER PRIMARY KEY, next_number INTEGER NOT NULL)";

const WRITES_SQL: &str =
    "CREATE TABLE writes (type TEXT NOT NULL, name TEXT NOT NULL, counter INTEGER NOT NULL, writer INTEGER NOT NULL, body TEXT, groups TEXT NOT NULL, PRIMARY KEY (type, name)) WITHOUT ROWID";

/// What the list of a file's tables says of it.
#[derive(Clone, Copy, Debug, PartialEq, Eq)]
pub(crate) enum Found {
    /// The tables of a store.
    Store,
    /// No table.
    Nothing,
    /// A store, with other tables than this format has.
    LaterFormat,
    /// Something else.
    Other,
}

fn table<'a>(shape: Shape, name: &'a str, sql: &'a str) -> Object<'a> {
    Object {
        shape,
        kind: "table",
        name,
        table: name,
        reals: 0,
        sql: Some(sql),
    }
}

/// The tables of a store, by the numbers of their trees.
pub(crate) fn objects() -> [Object<'static>; 2] {
    [
        table(Shape::Table, NUMBERS_NAME, NUMBERS_SQL),
        table(Shape::Index(Order::PLAIN), "writes", WRITES_SQL),
    ]
}

fn is_text(value: ValueRef<'_>, text: &str) -> bool {
    is_same(value, ValueRef::Text(text.as_bytes()))
}

// Whether the row of sqlite_schema lists the table. Its columns are the rowid, type, name, table, root page and SQL text.
fn lists(row: &Row, name: &str, sql: &str) -> bool {
    is_text(row.get(1), "table") && is_text(row.get(2), name) && is_text(row.get(5), sql)
}

// Whether the bytes stand in the page.
fn has_bytes(page: &[u8], bytes: &[u8]) -> bool {
    for at in 0..page.len() {
        if page[at..].starts_with(bytes) {
            return true;
        }
    }
    false
}

// Whether the first page of a database says that its list of tables is empty: it is a leaf, and has no row.
fn is_bare(page: &[u8]) -> bool {
    page.len() > 104 && page[100] == 13 && page[103] == 0 && page[104] == 0
}

/// What the first page of a database says of it. The list of a store's tables stands in this page, since it has few. What
/// is told so may be told otherwise by the rows.
pub(crate) fn said_by_page(page: &[u8]) -> Found {
    if is_bare(page) {
        return Found::Nothing;
    }
    if !has_bytes(page, NUMBERS_ROW.as_bytes()) {
        return Found::Other;
    }
    if has_bytes(page, NUMBERS_SQL.as_bytes()) && has_bytes(page, WRITES_SQL.as_bytes()) {
        return Found::Store;
    }
    Found::LaterFormat
}

fn has_numbers(rows: &[Row]) -> bool {
    for row in rows {
        if is_text(row.get(1), "table") && is_text(row.get(2), NUMBERS_NAME) {
            return true;
        }
    }
    false
}

/// What the rows of sqlite_schema say of the file.
pub(crate) fn said_by(rows: &[Row]) -> Found {
    if rows.is_empty() {
        return Found::Nothing;
    }
    if !has_numbers(rows) {
        return Found::Other;
    }
    if rows.len() == 2
        && lists(&rows[0], NUMBERS_NAME, NUMBERS_SQL)
        && lists(&rows[1], "writes", WRITES_SQL)
    {
        return Found::Store;
    }
    Found::LaterFormat
}
