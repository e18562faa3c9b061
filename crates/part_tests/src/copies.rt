// Copies of statements, of every kind of node.
use lb_print::canonical;
use lb_read::read;
use std::test::Fail;

// Whether the text is a statement, and a copy of it has the statement's canonical text.
fn is_copied(rt: &HostRuntime, text: &str) -> Result<bool, Fail> {
    match read(rt.alloc(), text.as_bytes()) {
        Ok(stmt) => {
            let copy = stmt.copy(rt.alloc())?;
            let text = canonical(rt.alloc(), &stmt)?;
            let copied = canonical(rt.alloc(), &copy)?;
            Ok(copied.is(&text))
        }
        Err(_) => Ok(false),
    }
}

#[test]
fn statements_are_copied_where_there_is_memory(rt: HostRuntime) -> Result<(), Fail> {
    let cases = [
        "SELECT DISTINCT T.*, A X, 1 - (2 + B), 'it''s' || C, A * B FROM T, S U JOIN V ON A = B LEFT JOIN W ON NOT A IS NULL CROSS JOIN Z WHERE A = 1 OR B <> 2 AND EXISTS (SELECT * FROM S) GROUP BY A, T.B HAVING COUNT(*) > 1 ORDER BY A DESC, 2 FETCH FIRST 3 ROWS ONLY",
        "SELECT CASE WHEN A = (SELECT B FROM S) THEN 1 ELSE NULL END, CASE A WHEN 1 THEN 2 END, SUM(A), COUNT(DISTINCT A), SUBSTR(A, 1, 2), SUBSTR(A, 1), LENGTH(A), COALESCE(A, B) FROM T WHERE A IN (1, 2) AND B IN (SELECT C FROM S) AND C BETWEEN 1 AND 2",
        "SELECT DATE '2024-02-29', CURRENT DATE, SESSION_USER, VERIFY_ROLE_FOR_USER(SESSION_USER, 'R'), VERIFY_GROUP_FOR_USER(SESSION_USER, 'G'), SECLABEL('P', 'A'), SECLABEL_BY_NAME('P', 'L'), SECLABEL_TO_CHAR('P', T.C) FROM T",
        "INSERT INTO T (A, B) VALUES (1, 'x'), (NULL, 2)",
        "INSERT INTO T SELECT A FROM S ORDER BY A",
        "UPDATE T AS U SET A = 1, B = NULL WHERE C = 2",
        "DELETE FROM T WHERE A IS NULL",
        "CREATE TABLE T (A INT NOT NULL, L DB2SECURITYLABEL, B VARCHAR(3) SECURED WITH S, PRIMARY KEY (A)) SECURITY POLICY P",
        "DROP TABLE T",
        "ALTER TABLE T ADD A DATE",
        "ALTER TABLE T ADD SECURITY POLICY P",
        "ALTER TABLE T ALTER A SECURED WITH L",
        "ALTER TABLE T ALTER A DROP COLUMN SECURITY",
        "ALTER TABLE T ACTIVATE ROW ACCESS CONTROL DEACTIVATE COLUMN ACCESS CONTROL",
        "CREATE OR REPLACE PERMISSION P ON T AS X FOR ROWS WHERE X.A = 1 ENFORCED FOR ALL ACCESS ENABLE",
        "CREATE MASK M ON T FOR COLUMN A RETURN CASE WHEN A = 1 THEN 2 END",
        "ALTER PERMISSION P ENABLE",
        "ALTER MASK M DISABLE",
        "DROP PERMISSION P",
        "DROP MASK M",
        "CREATE SECURITY LABEL COMPONENT C SET {'A', 'B'}",
        "CREATE SECURITY LABEL COMPONENT C ARRAY ['A']",
        "CREATE SECURITY LABEL COMPONENT C TREE ('A' ROOT, 'B' UNDER 'A')",
        "DROP SECURITY LABEL COMPONENT C",
        "CREATE SECURITY POLICY P COMPONENTS A, B WITH DB2LBACRULES RESTRICT NOT AUTHORIZED WRITE SECURITY LABEL",
        "DROP SECURITY POLICY P",
        "CREATE SECURITY LABEL P.L COMPONENT C 'A', 'B', COMPONENT D 'E'",
        "DROP SECURITY LABEL P.L",
        "GRANT SECURITY LABEL P.L TO U FOR READ ACCESS",
        "REVOKE SECURITY LABEL P.L FROM U",
        "GRANT EXEMPTION ON RULE ALL FOR P TO U",
        "REVOKE EXEMPTION ON RULE DB2LBACWRITESET FOR P FROM U",
        "CREATE ROLE R",
        "DROP ROLE R",
        "GRANT ROLE R TO U",
        "REVOKE ROLE R FROM U",
        "GRANT SECADM ON DATABASE TO U",
        "REVOKE SECADM ON DATABASE FROM U",
        "GRANT SELECT, INSERT ON T TO PUBLIC",
        "REVOKE UPDATE ON T FROM U",
    ];
    for text in cases {
        let copied = is_copied(&rt, text)?;
        assert!(rt; copied, "{text}");
    }
    Ok(())
}
