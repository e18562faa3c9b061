// The statements: thirteen that go round, each with other names, after which the catalogue is about as large as before.
use lb_base::NoMemory;
use std::alloc::Global;

/// CREATE TABLE with this number.
pub fn table(alloc: Global, table: u32) -> Result<String, NoMemory> {
    format!(in alloc; "CREATE TABLE T{table} (A INT PRIMARY KEY, B VARCHAR(20))")
}

/// The user with this number may read the table with that number.
pub fn grant(alloc: Global, table: u32, user: u32) -> Result<String, NoMemory> {
    format!(in alloc; "GRANT SELECT ON T{table} TO USER U{user}")
}

/// The statement in this place.
pub fn statement(alloc: Global, place: u32) -> Result<String, NoMemory> {
    let round = place / 13;
    let (t, other, u) = (round % 64, (round % 64 + 1) % 64, round % 1_000);
    match place % 13 {
        0 => format!(in alloc; "GRANT INSERT, UPDATE ON T{t} TO USER U{u}"),
        1 => format!(in alloc; "CREATE ROLE R{round}"),
        2 => format!(in alloc; "GRANT ROLE R{round} TO USER U{u}"),
        3 => format!(in alloc; "ALTER TABLE T{t} ACTIVATE ROW ACCESS CONTROL"),
        4 => format!(in alloc;
            "CREATE PERMISSION P ON T{t} FOR ROWS WHERE EXISTS (SELECT A FROM T{other} WHERE B = SESSION_USER) ENFORCED FOR ALL ACCESS ENABLE"
        ),
        5 => format!(in alloc; "ALTER TABLE T{other} ADD COLUMN C{round} DATE"),
        6 => format!(in alloc; "DROP PERMISSION P"),
        7 => format!(in alloc; "REVOKE ROLE R{round} FROM USER U{u}"),
        8 => format!(in alloc; "DROP ROLE R{round}"),
        9 => format!(in alloc; "REVOKE INSERT, UPDATE ON T{t} FROM USER U{u}"),
        10 => format!(in alloc; "DROP TABLE T{other}"),
        11 => table(alloc, other),
        _ => grant(alloc, other, u),
    }
}
