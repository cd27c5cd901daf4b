//! The stories of examples/, without their notes: lines of several sessions, and the lines of their replies.

/// The lines of a script, and the lines that answer them.
pub type Story = (&'static str, &'static str);

/// Two tellers move money between accounts: `examples/accounts.script`.
pub static ACCOUNTS: Story = (
    r#"ann: CREATE (:Account {no: 1, owner: 'Mia', balance: 100}), (:Account {no: 2, owner: 'Noor', balance: 50}), (:Account {no: 3, owner: 'Otto', balance: 0})
ann: BEGIN
ann: MATCH (a:Account {no: 1}), (b:Account {no: 2}) SET a.balance = a.balance - 30, b.balance = b.balance + 30 CREATE (a)-[:TRANSFER {amount: 30}]->(b) RETURN a.balance, b.balance
ben: MATCH (a:Account) RETURN a.owner, a.balance ORDER BY a.owner
ben: BEGIN
ben: MATCH (b:Account {no: 3}) SET b.balance = b.balance + 20 RETURN b.balance
ben: MATCH (a:Account {no: 2}) SET a.balance = a.balance - 20
ben: COMMIT
ann: COMMIT
ben: BEGIN
ben: MATCH (a:Account {no: 2}), (b:Account {no: 3}) WHERE a.balance >= 20 SET a.balance = a.balance - 20, b.balance = b.balance + 20 CREATE (a)-[:TRANSFER {amount: 20}]->(b) RETURN a.balance, b.balance
ben: COMMIT
ann: MATCH (a:Account {no: 3}), (b:Account {no: 1}) WHERE a.balance >= 500 SET a.balance = a.balance - 500, b.balance = b.balance + 500 RETURN a.balance
ann: BEGIN
ann: MATCH (a:Account {no: 1}) SET a.balance = 0, a:Closed
ann: ROLLBACK
ben: MATCH (a:Account) RETURN a.owner, a.balance, labels(a) ORDER BY a.balance DESC
ben: MATCH (a:Account) RETURN sum(a.balance) AS all
ben: MATCH (a)-[t:TRANSFER]->(b) RETURN a.owner, b.owner, t.amount ORDER BY t.amount
ben: .now
ann: .quit"#,
    r#"ann: OK 0 at 2
ann: OK begin at 3
ann: [70,80]
ann: OK 1 at 3
ben: ["Mia",100]
ben: ["Noor",50]
ben: ["Otto",0]
ben: OK 3 at 4
ben: OK begin at 5
ben: [20]
ben: OK 1 at 5
ben: ERR 8 conflict v1 open 3 (aborted)
ben: ERR 12 no transaction
ann: OK commit at 6
ben: OK begin at 7
ben: [60,20]
ben: OK 1 at 7
ben: OK commit at 8
ann: OK 0 at 9
ann: OK begin at 10
ann: OK 0 at 10
ann: OK rollback
ben: ["Mia",70,["Account"]]
ben: ["Noor",60,["Account"]]
ben: ["Otto",20,["Account"]]
ben: OK 3 at 11
ben: [150]
ben: OK 1 at 12
ben: ["Noor","Otto",20]
ben: ["Mia","Noor",30]
ben: OK 2 at 13
ben: OK now 14 mark 14
ann: OK bye
"#,
);

/// Two administrators change who may read what: `examples/permissions.script`.
pub static PERMISSIONS: Story = (
    r#"eva: CREATE (:Resource {name: 'plans'}), (:Resource {name: 'wages'})
eva: CREATE (:Group {name: 'staff'}), (:Group {name: 'office'})
eva: MATCH (g:Group), (r:Resource {name: 'plans'}) CREATE (g)-[:MAY_READ]->(r)
eva: MATCH (g:Group {name: 'office'}), (r:Resource {name: 'wages'}) CREATE (g)-[:MAY_READ]->(r)
eva: UNWIND [['Ada', 'staff'], ['Bo', 'staff'], ['Cy', 'office']] AS new MATCH (g:Group) WHERE g.name = new[1] CREATE (:User {name: new[0]})-[:MEMBER_OF]->(g)
audit: MATCH (u:User)-[:MEMBER_OF]->()-[:MAY_READ]->(r) RETURN r.name, collect(u.name) ORDER BY r.name
eva: BEGIN
eva: MATCH (u:User {name: 'Bo'})-[m:MEMBER_OF]->(), (g:Group {name: 'office'}) DELETE m CREATE (u)-[:MEMBER_OF]->(g)
karl: BEGIN
karl: MATCH (g:Group {name: 'staff'}) DETACH DELETE g
audit: .stats
audit: .sweep
audit: .stats
eva: COMMIT
karl: MATCH (g:Group {name: 'staff'}) DELETE g
karl: MATCH (g:Group {name: 'staff'})-[e]-(x) RETURN type(e), labels(x), x.name
karl: BEGIN
karl: MATCH (u:User)-[:MEMBER_OF]->(:Group {name: 'staff'}), (g:Group {name: 'office'}) CREATE (u)-[:MEMBER_OF]->(g) RETURN u.name
karl: MATCH (g:Group {name: 'staff'}) DETACH DELETE g
karl: COMMIT
audit: MATCH (u:User)-[:MEMBER_OF]->()-[:MAY_READ]->(r) RETURN r.name, collect(u.name) ORDER BY r.name
eva: MATCH ()-[e:MAY_READ]->(r:Resource {name: 'wages'}), (u:User {name: 'Cy'}) DELETE e CREATE (u)-[:MAY_READ]->(r)
audit: MATCH (x)-[:MAY_READ]->(r:Resource) RETURN r.name, labels(x), x.name
audit: .sweep
audit: .stats"#,
    r#"eva: OK 0 at 2
eva: OK 0 at 4
eva: OK 0 at 6
eva: OK 0 at 8
eva: OK 0 at 10
audit: ["plans",["Ada","Bo","Cy"]]
audit: ["wages",["Cy"]]
audit: OK 2 at 11
eva: OK begin at 12
eva: OK 0 at 12
karl: OK begin at 13
karl: ERR 8 conflict v2 open 12 (aborted)
audit: OK chain 39 history 0 blocks 0
audit: OK swept mark 12 moved 39 stale 0
audit: OK chain 0 history 39 blocks 39
eva: OK commit at 14
karl: ERR 9 has edges v2
karl: ["MAY_READ",["Resource"],"plans"]
karl: ["MEMBER_OF",["User"],"Ada"]
karl: OK 2 at 16
karl: OK begin at 17
karl: ["Ada"]
karl: OK 1 at 17
karl: OK 0 at 17
karl: OK commit at 18
audit: ["plans",["Ada","Bo","Cy"]]
audit: ["wages",["Ada","Bo","Cy"]]
audit: OK 2 at 19
eva: OK 0 at 21
audit: ["plans",["Group"],"office"]
audit: ["wages",["User"],"Cy"]
audit: OK 2 at 22
audit: OK swept mark 23 moved 22 stale 0
audit: OK chain 0 history 61 blocks 61
"#,
);

/// Who could read what, when, and since when: `examples/audit.script`.
pub static AUDIT: Story = (
    r#"eva: CREATE (:User {name: 'Ada'}), (:User {name: 'Bo'}), (:Group {name: 'staff'}), (:Group {name: 'office'})
eva: CREATE (:Resource {name: 'plans'}), (:Resource {name: 'wages'})
eva: MATCH (g:Group {name: 'office'}), (r:Resource) CREATE (g)-[:MAY_READ]->(r)
eva: MATCH (u:User), (g:Group {name: 'staff'}) CREATE (u)-[:MEMBER_OF]->(g)
eva: MATCH (u:User {name: 'Bo'}), (g:Group {name: 'office'}) CREATE (u)-[:MEMBER_OF]->(g)
eva: MATCH (g:Group {name: 'staff'}), (r:Resource {name: 'plans'}) CREATE (g)-[:MAY_READ]->(r)
eva: MATCH (u:User {name: 'Bo'})-[m:MEMBER_OF]->(g:Group {name: 'office'}) DELETE m
eva: MATCH (u:User {name: 'Bo'}), (g:Group {name: 'office'}) CREATE (u)-[:MEMBER_OF]->(g)
eva: MATCH (r:Resource {name: 'wages'}) SET r.secret = true
audit: .sweep
audit: .now
audit: MATCH (u:User)-[:MEMBER_OF]->(g)-[:MAY_READ]->(r:Resource {name: 'wages'}) RETURN u.name, g.name TT BETWEEN 1 AND 19
audit: MATCH (u:User)-[:MEMBER_OF]->(g)-[:MAY_READ]->(r:Resource {name: 'plans'}) RETURN u.name, g.name TT BETWEEN 1 AND 20
audit: MATCH (u:User)-[:MEMBER_OF]->(g)-[:MAY_READ]->(r) RETURN u.name, r.name, g.name TT SNAPSHOT 15
audit: MATCH (r:Resource {name: 'wages'}) RETURN r.secret TT BETWEEN 3 AND 22
audit: MATCH (r:Resource) RETURN r.name TT SNAPSHOT 99
audit: MATCH (r:Resource) RETURN r.name TT BETWEEN 9 AND 3
audit: .now"#,
    r#"eva: OK 0 at 2
eva: OK 0 at 4
eva: OK 0 at 6
eva: OK 0 at 8
eva: OK 0 at 10
eva: OK 0 at 12
eva: OK 0 at 14
eva: OK 0 at 16
eva: OK 0 at 18
audit: OK swept mark 19 moved 43 stale 0
audit: OK now 19 mark 19
audit: ["Bo","office",10,13]
audit: ["Bo","office",16,19]
audit: OK 2 at 19
audit: ["Ada","staff",12,20]
audit: ["Bo","staff",12,20]
audit: ["Bo","office",10,13]
audit: ["Bo","office",16,20]
audit: OK 4 at 20
audit: ["Ada","plans","staff"]
audit: ["Bo","plans","staff"]
audit: OK 2 at 21
audit: [null,4,17]
audit: [true,18,22]
audit: OK 2 at 22
audit: ERR 10 time ahead 99 start 23
audit: ERR 11 bad range 9 3
audit: OK now 24 mark 24
"#,
);
